// The monitors of a script: how each is made, and the monitor itself, made anew for each question.
ghost use Rattle.replay.specs.Recipes.{TableOf, LineOf};

use crate::level::{Kind, Level};
use history::Refused;
use monitor::{Monitor, Table};
use rule::RuleLine;

// The numbers and bytes of a table.
#[derive(Drop)]
pub struct TableBytes {
    pub states: u8,
    pub initial: u8,
    pub bad: u64,
    pub guards: Vec<u8>,
    pub arcs: Vec<u8>,
}

// The bytes of a rule file.
#[derive(Drop)]
pub struct LineBytes(pub Vec<u8>);

// A monitor as a call describes it: a table, a rule line, or a combination of monitors by their names.
#[derive(Drop)]
pub enum Recipe {
    Table(TableBytes),
    Line(LineBytes),
    Either(String, String),
    Both(String, String),
    Only(u32, String),
}

// A monitor as it is kept; a rule line is read once.
// Kept: parts by their places. By names, a question would look up each part, and each combination would hold its parts' names.
#[derive(Drop)]
pub enum Placed {
    Table(TableBytes),
    Line(Box<RuleLine>),
    Either(usize, usize),
    Both(usize, usize),
    Only(u32, usize),
}

impl TableBytes {
    pub fn table(&self) -> Result<Table<'_>, Refused>
        ensures { TableOf self.now result }
    {
        let mut table = Table::new();
        table.fill(
            self.states,
            self.initial,
            self.bad,
            &self.guards,
            &self.arcs,
        )?;
        Ok(table)
    }
}

impl LineBytes {
    pub fn line(&self) -> Result<RuleLine, Refused>
        ensures { LineOf self.now result }
    {
        let mut line = RuleLine::new();
        line.read(&self.0)?;
        Ok(line)
    }
}

// A monitor that can be made of what is kept at a place.
pub trait Make<'a>: Monitor + Copy {
    fn make(monitors: &'a [Placed], at: usize) -> Self;
}

// A table; a new one where there is none.
impl<'a> Make<'a> for Table<'a> {
    fn make(monitors: &'a [Placed], at: usize) -> Table<'a> {
        match monitors.get(at) {
            Some(Placed::Table(bytes)) => bytes.table().unwrap_or(Table::new()),
            _ => Table::new(),
        }
    }
}

impl<'a, M: Make<'a>> Make<'a> for Level<'a, M> {
    fn make(monitors: &'a [Placed], at: usize) -> Level<'a, M> {
        // Where a level has no part, a blank stands, which nothing asks: at that place nothing is kept.
        let none = monitors.len();
        let (kind, left, right) = match monitors.get(at) {
            Some(Placed::Line(line)) => (Kind::Line(line), none, none),
            Some(Placed::Either(left, right)) => (Kind::Either, *left, *right),
            Some(Placed::Both(left, right)) => (Kind::Both, *left, *right),
            Some(Placed::Only(mask, below)) => (Kind::Only(*mask), *below, none),
            _ => (Kind::One, at, none),
        };
        Level {
            kind,
            left: M::make(monitors, left),
            right: M::make(monitors, right),
        }
    }
}

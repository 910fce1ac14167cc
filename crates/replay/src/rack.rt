// The monitors of a script by their names, and what the calls on them answer.
use crate::answer::Answer;
use crate::call::{CallError, Question};
use crate::level::Level;
use crate::recipe::{Make, Placed, Recipe};
use monitor::{Monitor, Table};
use std::alloc::{AllocError, Global};
use std::collections::HashMap;

#[derive(Drop)]
pub struct Rack {
    heap: Global,
    // The place of each name's monitor.
    places: HashMap<String, usize>,
    monitors: Vec<Placed>,
}

// Combinations of tables four deep, and of rule lines three deep, which is as deep as scripts go.
type Deep<'a> = Level<'a, Level<'a, Level<'a, Level<'a, Table<'a>>>>>;

fn asked<M: Monitor>(monitor: &M, question: Question) -> Answer {
    match question {
        Question::States => monitor.states().into(),
        Question::Start(state) => monitor.starts(state).into(),
        Question::Bad(state) => monitor.is_bad(state).into(),
        Question::Step(event, from, to) => monitor.steps(from, event, to).into(),
    }
}

impl Rack {
    pub fn new(heap: Global) -> Rack {
        Rack {
            heap,
            places: HashMap::new(heap),
            monitors: Vec::new(heap),
        }
    }

    fn place(&self, name: &str) -> Result<usize, CallError> {
        self.places.get(name).copied().ok_or(CallError::Unknown)
    }

    // Puts a monitor under a name, which may be new.
    fn put(&mut self, name: String, monitor: Placed) -> Result<Answer, CallError> {
        let known = self.places.get(name.as_str()).copied();
        match known.and_then(|at| self.monitors.get_mut(at)) {
            Some(kept) => *kept = monitor,
            None => {
                self.places
                    .insert(name, self.monitors.len())
                    .map_err(AllocError::from)?;
                self.monitors.push(monitor).map_err(AllocError::from)?;
            }
        }
        Ok(Answer::Done)
    }

    // Keeps the monitor that is described, unless it is refused or one of its parts is not known.
    pub(crate) fn keep(&mut self, name: String, recipe: Recipe) -> Result<Answer, CallError> {
        let monitor = match recipe {
            Recipe::Table(bytes) => match bytes.table() {
                Ok(_table) => Placed::Table(bytes),
                Err(why) => return Ok(Answer::Refused(why)),
            },
            Recipe::Line(bytes) => match bytes.line() {
                Ok(line) => Placed::Line(Box::new(self.heap, line).map_err(AllocError::from)?),
                Err(why) => return Ok(Answer::Refused(why)),
            },
            Recipe::Either(left, right) => {
                Placed::Either(self.place(left.as_str())?, self.place(right.as_str())?)
            }
            Recipe::Both(left, right) => {
                Placed::Both(self.place(left.as_str())?, self.place(right.as_str())?)
            }
            Recipe::Only(mask, below) => Placed::Only(mask, self.place(below.as_str())?),
        };
        self.put(name, monitor)
    }

    pub(crate) fn ask(&self, name: &str, question: Question) -> Result<Answer, CallError> {
        let monitor = Deep::make(&self.monitors, self.place(name)?);
        Ok(asked(&monitor, question))
    }
}

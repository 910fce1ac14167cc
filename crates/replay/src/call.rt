// The calls of a script, read from its lines.
use crate::recipe::{LineBytes, Recipe, TableBytes};
use hex::FromHexError;
use history::{Event, EventId, Label, Wait};
use std::alloc::{AllocError, Global};
use std::num::ParseIntError;

// One of the four questions of a monitor.
#[derive(Clone, Copy)]
pub enum Question {
    States,
    Start(u16),
    Bad(u16),
    Step(Label, u16, u16),
}

#[derive(Drop)]
pub enum SheetCall {
    Choose(u8),
    Open(u8),
    Note(u8, Event),
    Load(Vec<u8>),
    Reach(EventId),
    Precedes(EventId, EventId),
}

#[derive(Drop)]
pub enum Call {
    Sheet(SheetCall),
    // Puts a monitor under a name.
    Keep(String, Recipe),
    // Asks the monitor of a name.
    Ask(String, Question),
}

// Why a call is not answered.
#[derive(Debug, Drop)]
pub enum CallError {
    // Its name, or the name of a monitor in it, is not known here.
    Unknown,
    // Its words are not what the call of its name takes.
    Unreadable,
    Memory(AllocError),
}

impl From<AllocError> for CallError {
    fn from(error: AllocError) -> CallError {
        CallError::Memory(error)
    }
}

impl From<ParseIntError> for CallError {
    fn from(_error: ParseIntError) -> CallError {
        CallError::Unreadable
    }
}

impl From<FromHexError> for CallError {
    fn from(_error: FromHexError) -> CallError {
        CallError::Unreadable
    }
}

// Bytes as two lower-case digits each; a lone `-` stands for none.
fn bytes(heap: Global, text: &str) -> Result<Vec<u8>, CallError> {
    if text == "-" {
        return Ok(Vec::new(heap));
    }
    if text.bytes().any(|digit| digit.is_ascii_uppercase()) {
        return Err(CallError::Unreadable);
    }
    let mut bytes = vec![in heap; 0; text.len() / 2]?;
    hex::decode_to_slice(text, &mut bytes)?;
    Ok(bytes)
}

fn event_id(station: &str, number: &str) -> Result<EventId, ParseIntError> {
    Ok(EventId {
        station: station.parse()?,
        number: number.parse()?,
    })
}

// The call on a sheet that has the name and takes the words.
fn sheet_call(heap: Global, name: &str, words: &[&str]) -> Result<SheetCall, CallError> {
    match (name, words) {
        ("sheet", [number]) => Ok(SheetCall::Choose(number.parse()?)),
        ("open", [count]) => Ok(SheetCall::Open(count.parse()?)),
        ("note", [station, variable, value, awaited, count]) => {
            let wait = Wait {
                station: awaited.parse()?,
                count: count.parse()?,
            };
            let event = Event {
                variable: variable.parse()?,
                value: value.parse()?,
                wait,
            };
            Ok(SheetCall::Note(station.parse()?, event))
        }
        ("load", [file]) => Ok(SheetCall::Load(bytes(heap, file)?)),
        ("reach", [station, number]) => Ok(SheetCall::Reach(event_id(station, number)?)),
        ("precedes", [s, n, t, k]) => Ok(SheetCall::Precedes(event_id(s, n)?, event_id(t, k)?)),
        _ => Err(CallError::Unreadable),
    }
}

fn read_question(kind: &str, words: &[&str]) -> Result<Question, CallError> {
    match (kind, words) {
        ("states", []) => Ok(Question::States),
        ("start", [state]) => Ok(Question::Start(state.parse()?)),
        ("bad", [state]) => Ok(Question::Bad(state.parse()?)),
        ("step", [station, variable, value, from, to]) => {
            let event = Label {
                station: station.parse()?,
                variable: variable.parse()?,
                value: value.parse()?,
            };
            Ok(Question::Step(event, from.parse()?, to.parse()?))
        }
        _ => Err(CallError::Unreadable),
    }
}

// How the monitor of that kind is made.
fn read_recipe(heap: Global, kind: &str, words: &[&str]) -> Result<Recipe, CallError> {
    let name = |word: &str| String::from_str(heap, word);
    match (kind, words) {
        ("table", [states, initial, bad, guards, arcs]) => Ok(Recipe::Table(TableBytes {
            states: states.parse()?,
            initial: initial.parse()?,
            bad: bad.parse()?,
            guards: bytes(heap, guards)?,
            arcs: bytes(heap, arcs)?,
        })),
        ("line", [file]) => Ok(Recipe::Line(LineBytes(bytes(heap, file)?))),
        ("either", [left, right]) => Ok(Recipe::Either(name(left)?, name(right)?)),
        ("both", [left, right]) => Ok(Recipe::Both(name(left)?, name(right)?)),
        ("only", [mask, below]) => Ok(Recipe::Only(mask.parse()?, name(below)?)),
        _ => Err(CallError::Unreadable),
    }
}

// The call that a line makes.
// Kept: names stand here and where words are read. In one place they would still be listed twice, to tell a call that cannot be
// read from one that is not known.
pub fn read(heap: Global, line: &str) -> Result<Call, CallError> {
    let words: Vec<&str> = line.split(' ').collect(heap)?;
    let [name, rest @ ..] = words.as_slice() else {
        return Err(CallError::Unknown);
    };
    match (*name, rest) {
        ("sheet" | "open" | "note" | "load" | "reach" | "precedes", words) => {
            Ok(Call::Sheet(sheet_call(heap, name, words)?))
        }
        ("table" | "line" | "either" | "both" | "only", [monitor, words @ ..]) => {
            let recipe = read_recipe(heap, name, words)?;
            Ok(Call::Keep(String::from_str(heap, monitor)?, recipe))
        }
        ("states" | "start" | "bad" | "step", [monitor, words @ ..]) => {
            let question = read_question(name, words)?;
            Ok(Call::Ask(String::from_str(heap, monitor)?, question))
        }
        ("table" | "line" | "either" | "both" | "only" | "states" | "start" | "bad" | "step", []) =>
            { Err(CallError::Unreadable) }
        _ => Err(CallError::Unknown),
    }
}

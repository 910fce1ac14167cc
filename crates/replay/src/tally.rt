// How many calls of the scripts agreed with what was expected.
use crate::answer::Answer;
use crate::call;
use crate::call::{Call, CallError};
use crate::desk::Desk;
use crate::rack::Rack;
use std::alloc::{AllocError, Global};
use std::fmt;

#[derive(Drop)]
pub struct Tally {
    heap: Global,
    desk: Desk,
    rack: Rack,
    script: String,
    agreed: u64,
    differed: u64,
    passed_over: u64,
    // The first call that differed.
    first: Option<String>,
}

impl Tally {
    pub fn new(heap: Global) -> Tally {
        Tally {
            heap,
            desk: Desk::new(),
            rack: Rack::new(heap),
            script: String::new(heap),
            agreed: 0,
            differed: 0,
            passed_over: 0,
            first: None,
        }
    }

    fn compare(&mut self, call: &str, expected: &str, found: Answer) -> Result<(), AllocError> {
        let found = found.to_string(self.heap)?;
        if found.as_str() == expected {
            self.agreed = self.agreed.saturating_add(1);
            return Ok(());
        }
        self.differed = self.differed.saturating_add(1);
        if self.first.is_none() {
            let script = self.script.as_str();
            self.first = Some(format!(in self.heap;
                "{script}: {call} = {found}, expected {expected}"
            )?);
        }
        Ok(())
    }

    fn answer(&mut self, call: &str) -> Result<Answer, CallError> {
        match call::read(self.heap, call)? {
            Call::Sheet(call) => Ok(self.desk.answer(call)),
            Call::Keep(name, recipe) => self.rack.keep(name, recipe),
            Call::Ask(name, question) => self.rack.ask(name.as_str(), question),
        }
    }

    // Makes the call of a line, or begins a script.
    pub fn line(&mut self, line: &str) -> Result<(), AllocError> {
        if line.starts_with("script ") {
            self.desk = Desk::new();
            self.rack = Rack::new(self.heap);
            self.script = String::from_str(self.heap, line)?;
            return Ok(());
        }
        let Some((call, expected)) = line.split_once(" = ") else {
            return Ok(());
        };
        match self.answer(call) {
            Ok(found) => self.compare(call, expected, found),
            Err(CallError::Unreadable) => self.compare(call, expected, Answer::Unreadable),
            Err(CallError::Unknown) => {
                self.passed_over = self.passed_over.saturating_add(1);
                Ok(())
            }
            Err(CallError::Memory(error)) => Err(error),
        }
    }
}

// What is printed at the end.
impl fmt::Display for Tally {
    fn fmt<W: fmt::Write>(&self, f: &mut fmt::Formatter<W>) -> fmt::Result {
        let agreed = self.agreed;
        let differed = self.differed;
        let passed_over = self.passed_over;
        let first = self.first.as_deref().unwrap_or("none");
        write!(
            f,
            "agreed {agreed}, differed {differed}, passed over {passed_over}; "
        )?;
        write!(f, "first difference: {first}")
    }
}

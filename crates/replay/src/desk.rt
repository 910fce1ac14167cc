// The two sheets of a script, and what the calls on them answer.
use crate::answer::Answer;
use crate::call::SheetCall;
use history::{Counts, EventId, Refused};
use sheet::Sheet;

#[derive(Drop)]
pub struct Desk {
    // The sheet that calls go to, its number, and the one put aside.
    sheet: Sheet,
    chosen: u8,
    aside: Sheet,
}

impl Desk {
    pub fn new() -> Desk {
        Desk {
            sheet: Sheet::new(),
            chosen: 0,
            aside: Sheet::new(),
        }
    }

    fn choose(&mut self, number: u8) {
        if self.chosen != number {
            std::mem::swap(&mut self.sheet, &mut self.aside);
            self.chosen = number;
        }
    }

    fn reach(&self, event: EventId) -> Result<Counts, Refused> {
        let mut clock = [0; 8];
        self.sheet.reach(event, &mut clock)?;
        Ok(Counts(clock))
    }

    pub fn answer(&mut self, call: SheetCall) -> Answer {
        match call {
            SheetCall::Choose(number) => {
                self.choose(number);
                Answer::Done
            }
            SheetCall::Open(count) => self.sheet.open(count).into(),
            SheetCall::Note(station, event) => self.sheet.note(station, event).into(),
            SheetCall::Load(file) => self.sheet.load(&file).into(),
            SheetCall::Reach(event) => self.reach(event).into(),
            SheetCall::Precedes(first, second) => self.sheet.precedes(first, second).into(),
        }
    }
}

// A monitor as a buyer writes one: it goes bad for good once an event sets its variable.
ghost use Rattle.examples.specs.Seen.{seen as meaning_of, seen_lawful};

use history::Label;
use monitor::Monitor;

#[derive(Clone, Copy)]
pub struct Seen {
    pub variable: u8,
}

impl Monitor for Seen {
    ghost meaning = { λ m. meaning_of m.variable };

    ghost lawful = { λ m. seen_lawful m.variable };

    fn states(&self) -> u16 {
        2
    }

    fn starts(&self, state: u16) -> bool {
        state == 0
    }

    fn is_bad(&self, state: u16) -> bool {
        state == 1
    }

    fn steps(&self, from: u16, event: Label, to: u16) -> bool {
        if from >= 2 || to >= 2 {
            return false;
        }
        to == u16::from(from == 1 || event.variable == self.variable)
    }
}

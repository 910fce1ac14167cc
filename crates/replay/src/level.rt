// Combinations of monitors to a fixed depth: a level is one monitor of the level below, a rule line, or a combination of monitors
// of the level below.
ghost use Rattle.std.specs.Prelude.{◌≡◌};
ghost use Rattle.replay.specs.Levels.{level, level_lawful};

use history::Label;
use monitor::{Both, Either, Monitor, Only};
use rule::RuleLine;

// What a level is of its two parts.
#[derive(Clone, Copy)]
pub enum Kind<'a> {
    // The left part alone.
    One,
    // A rule line, and no part.
    Line(&'a RuleLine),
    Either,
    Both,
    // The left part, with a mask.
    Only(u32),
}

// A level is a plain value: making one for a question takes no memory.
// Kept: a kind beside two parts. An enum over the combinations is slower where it boxes them, and where it holds them, of the two
// compilers with which the gate builds the program one cannot build it.
#[derive(Clone, Copy)]
pub struct Level<'a, M> {
    pub kind: Kind<'a>,
    pub left: M,
    pub right: M,
}

// What the monitor of a level answers, whichever it is.
macro_rules! ask {
    ($level:expr, $monitor:ident => $answer:expr) => {
        match $level.kind {
            Kind::One => {
                let $monitor = $level.left;
                $answer
            }
            Kind::Line($monitor) => $answer,
            Kind::Either => {
                let $monitor = Either::new($level.left, $level.right);
                $answer
            }
            Kind::Both => {
                let $monitor = Both::new($level.left, $level.right);
                $answer
            }
            Kind::Only(mask) => {
                let $monitor = Only::new(mask, $level.left);
                $answer
            }
        }
    };
}

impl<M: Monitor + Copy> Monitor for Level<'_, M> {
    ghost meaning = { level M.Monitor.meaning };

    ghost lawful = { level_lawful M.Monitor.meaning M.Monitor.lawful };

    fn states(&self) -> u16 {
        ask!(self, monitor => monitor.states())
    }

    fn starts(&self, state: u16) -> bool {
        ask!(self, monitor => monitor.starts(state))
    }

    fn is_bad(&self, state: u16) -> bool {
        ask!(self, monitor => monitor.is_bad(state))
    }

    fn steps(&self, from: u16, event: Label, to: u16) -> bool {
        ask!(self, monitor => monitor.steps(from, event, to))
    }
}

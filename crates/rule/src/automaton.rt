// The answers of a rule line as a monitor.
ghost use Rattle.std.specs.Prelude.{◌≡◌, ◌≤◌, take};
ghost use Rattle.rule.specs.Driven.{LineDriven};
ghost use Rattle.rule.specs.Held.{held, pass_over, steps_ahead as steps_ahead_of, steps_back as steps_back_of};
ghost use Rattle.rule.specs.Kinds.{back};
ghost use Rattle.rule.specs.RuleFiles.{formula_of};
ghost use Rattle.rule.specs.RuleLines.{automaton, rule_lawful};

use crate::kind::Kind;
use crate::line::RuleLine;
use crate::pass::{Letters, Pass, passed};
use history::Label;
use monitor::Monitor;

impl RuleLine {
    // The pass at the event, with these bits at the position looked at.
    fn pass(&self, event: Label, ahead: u64) -> Pass
        ensures { result ≡ pass_over (held self.now) event ahead }
    {
        let letters = Letters {
            guards: &self.guards[..usize::from(self.letters)],
            event,
        };
        passed(&letters, &self.items[..usize::from(self.size)], ahead)
    }

    // A step between states of a future line: into a state that is not the start, from the start when the line fails here,
    // from another when the bits here are that state's.
    fn steps_ahead(&self, from: u16, event: Label, to: u16) -> bool
        ensures { result ≡ steps_ahead_of (held self.now) from event to }
    {
        if to == 0 {
            return false;
        }
        let pass = self.pass(event, (to - 1) as u64);
        if from == 0 {
            pass.stack == 0
        } else {
            pass.here == (from - 1) as u64
        }
    }

    // A step between states of a past line: the failed state keeps itself; any other leads to the bits here, or to the failed
    // state when the line fails here. At the start nothing came before.
    fn steps_back(&self, from: u16, event: Label, to: u16) -> bool
        ensures { result ≡ steps_back_of (held self.now) self.now.outline from event to }
    {
        let before = match from {
            0 => self.outline.end,
            1 => return to == 1,
            _ => (from - 2) as u64,
        };
        let pass = self.pass(event, before);
        if pass.stack == 0 {
            to == 1
        } else {
            to >= 2 && pass.here == (to - 2) as u64
        }
    }
}

// Kept: a state is a number by the interface, and an enum of start, failed state and bits would be taken to pieces at once.
impl Monitor for RuleLine {
    ghost meaning = { λ l. automaton (formula_of (held l)) };

    ghost lawful = { λ l. rule_lawful (back l.kind) (take l.letters l.guards) (take l.size l.items) };

    fn states(&self) -> u16 {
        (1 << self.outline.temporal) + self.kind.spare_states()
    }

    fn starts(&self, state: u16) -> bool {
        state == 0
    }

    fn is_bad(&self, state: u16) -> bool {
        match self.kind {
            Kind::Future => state >= 1 && (state - 1) as u64 == self.outline.end,
            Kind::Past => state == 1,
        }
    }

    fn steps(&self, from: u16, event: Label, to: u16) -> bool {
        let states = self.states();
        if from >= states || to >= states {
            return false;
        }
        match self.kind {
            Kind::Future => self.steps_ahead(from, event, to),
            Kind::Past => self.steps_back(from, event, to),
        }
    }
}

// The promise of every rule line: its monitor can be driven to a bad state, by a sequence of one event or more, exactly when its
// line does not hold on it.
pub fn rule_line_driven(line: &RuleLine)
    ensures { LineDriven (⟦<RuleLine as Monitor>⟧.meaning line.now) (formula_of (held line.now)) }
{}

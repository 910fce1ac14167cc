// How a table is filled, and its answers as a monitor.
ghost use Rattle.std.specs.Prelude.{◌≡◌, true, is_ok, is_err};
ghost use Rattle.history.specs.Notes.{placed as at_place};
ghost use Rattle.monitor.specs.Described.{described};
ghost use Rattle.monitor.specs.Tables.{fill_answer, moves, table as meaning_of, idle, ArcSteps};
ghost use Rattle.monitor.specs.Laws.{table_lawful};

use crate::bytes::{ARC, Arc, GUARD};
use crate::interface::Monitor;
use crate::parts::Parts;
use crate::table::Table;
use history::{Label, Refusal, Refused};

impl<'a> Table<'a> {
    // A table of one state, which is not bad and which every event keeps.
    pub fn new() -> Self
        ensures { described result ≡ idle }
    {
        Table {
            parts: Parts {
                states: 1,
                initial: 0,
                bad: 0,
                guards: &[],
                arcs: &[],
            },
        }
    }

    // Becomes the table of these states, initial state, mask of bad states, guards and arcs.
    // Kept: five arguments. A public struct of borrowed parts would hold what `Parts` holds, and be made for this one call.
    pub fn fill(
        &mut self,
        states: u8,
        initial: u8,
        bad: u64,
        guards: &'a [u8],
        arcs: &'a [u8],
    ) -> Result<(), Refused>
        ensures answer { result ≡ at_place 0 (fill_answer (record { states = states; initial = initial; bad = bad; guards = guards.now; arcs = arcs.now })) }
        ensures filled { is_ok result ≡ true → described self.new ≡ record { states = states; initial = initial; bad = bad; guards = guards.now; arcs = arcs.now } }
        ensures steps { ArcSteps (described self.new) }
        ensures kept { is_err result ≡ true → self.new ≡ self.old }
    {
        let parts = Parts {
            states,
            initial,
            bad,
            guards,
            arcs,
        };
        if !parts.is_lawful() {
            Err(Refusal::BadTable)?;
        }
        *self = Table { parts };
        Ok(())
    }
}

impl Table<'_> {
    // Whether the event takes the one state to the other: by an arc, or, where no arc leads on, to itself.
    // By a rule of the project a loop over the arcs decides a step.
    fn moves(&self, from: u8, event: Label, to: u8) -> bool
        ensures { result ≡ moves (described self.now) from event to }
    {
        let (guards, _) = self.parts.guards.as_chunks::<GUARD>();
        let (arcs, _) = self.parts.arcs.as_chunks::<ARC>();
        let mut stays = from == to;
        for bytes in arcs {
            let arc = Arc::from(bytes);
            if arc.leads(guards, from, event) {
                if arc.to == to {
                    return true;
                }
                stays = false;
            }
        }
        stays
    }
}

impl Monitor for Table<'_> {
    ghost meaning = { λ t. meaning_of (described t) };

    ghost lawful = { λ t. table_lawful (described t) t.lawful };

    fn states(&self) -> u16 {
        u16::from(self.parts.states)
    }

    fn starts(&self, state: u16) -> bool {
        state < self.states() && state == u16::from(self.parts.initial)
    }

    fn is_bad(&self, state: u16) -> bool {
        state < self.states() && (self.parts.bad >> state) & 1 == 1
    }

    fn steps(&self, from: u16, event: Label, to: u16) -> bool {
        let states = self.states();
        from < states && to < states && self.moves(from as u8, event, to as u8)
    }
}

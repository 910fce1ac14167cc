// What a table is made of, and when that makes a lawful one.
ghost use Rattle.std.specs.Prelude.{◌≡◌};
ghost use Rattle.monitor.specs.Tables.{all_below, arc_at, arc_count, arc_lawful, description, guard_count, guard_lawful, states_lawful, lawful_table};

use crate::bytes::{ARC, Arc, GUARD, is_guard};

// The most states of a table.
const STATES: u8 = 64;

// The parts of a table, lawful or not. They borrow the bytes of guards and arcs, so there may be any number of those.
#[derive(Clone, Copy)]
pub(crate) struct Parts<'a> {
    pub(crate) states: u8,
    pub(crate) initial: u8,
    pub(crate) bad: u64,
    pub(crate) guards: &'a [u8],
    pub(crate) arcs: &'a [u8],
}

impl Parts<'_> {
    // Whether the states, the initial one and the mask of bad ones fit each other.
    fn has_lawful_states(&self) -> bool
        ensures { result ≡ states_lawful self.now.states self.now.initial self.now.bad }
    {
        (1..=STATES).contains(&self.states)
            && self.initial < self.states
            && (self.states == STATES || self.bad >> self.states == 0)
    }

    // Whether every guard's outside byte is 0 or 1.
    fn has_lawful_guards(&self) -> bool
        ensures { result ≡ all_below (guard_count (description self.now)) (guard_lawful self.now.guards.now) }
    {
        let (guards, _) = self.guards.as_chunks::<GUARD>();
        guards.iter().all(is_guard)
    }

    // Whether both ends of the arc are states and its guard is listed.
    fn allows(&self, arc: Arc) -> bool
        ensures { result ≡ arc_lawful self.now.states (guard_count (description self.now)) arc }
    {
        let guards = self.guards.len() / GUARD;
        arc.from < self.states && usize::from(arc.guard) < guards && arc.to < self.states
    }

    // Whether every arc is between states and has a listed guard.
    fn has_lawful_arcs(&self) -> bool
        ensures { result ≡ all_below (arc_count (description self.now)) (λ k. arc_lawful self.now.states (guard_count (description self.now)) (arc_at self.now.arcs.now k)) }
    {
        let (arcs, _) = self.arcs.as_chunks::<ARC>();
        arcs.iter().all(|arc| self.allows(Arc::from(arc)))
    }

    // Whether the states fit each other, and guards and arcs are whole and lawful.
    pub(crate) fn is_lawful(&self) -> bool
        ensures { result ≡ lawful_table (description self.now) }
    {
        let whole = self.guards.len() % GUARD == 0 && self.arcs.len() % ARC == 0;
        whole && self.has_lawful_states() && self.has_lawful_guards() && self.has_lawful_arcs()
    }
}

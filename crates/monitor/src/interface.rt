// The one interface of rule lines, tables, their combinations and a buyer's own monitors.
ghost use Rattle.std.specs.Prelude.{◌≡◌};
ghost use Rattle.monitor.specs.Meanings.{Meaning, Lawful};

use history::Label;

pub trait Monitor {
    // What the monitor means.
    ghost meaning: { Self → Meaning };

    // It has at most 4096 states and says no to every number that is no state.
    ghost lawful: { (m : Self) → Lawful (meaning m) };

    // How many states it has.
    fn states(&self) -> u16
        ensures { result ≡ (meaning self.now).states };

    // Whether the state is a start.
    fn starts(&self, state: u16) -> bool
        ensures { result ≡ (meaning self.now).start state };

    // Whether the state is bad.
    fn is_bad(&self, state: u16) -> bool
        ensures { result ≡ (meaning self.now).bad state };

    // Whether the event may take the one state to the other.
    // Kept: three parameters, since a combination asks its parts about states of their own and would make a struct anew for each.
    fn steps(&self, from: u16, event: Label, to: u16) -> bool
        ensures { result ≡ (meaning self.now).step from event to };
}

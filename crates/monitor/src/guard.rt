// Guards on events.
ghost use Rattle.std.specs.Prelude.{◌≡◌};
ghost use Rattle.monitor.specs.Guards.{triggers as triggered};

use history::Label;

// A variable and the values that it is asked for: those from low to high, or, outside, the others.
// Kept: `outside` marks no missing value. Both ends count either way, and callers name the field.
#[derive(Clone, Copy, Debug, Default)]
pub struct Guard {
    pub variable: u8,
    pub low: i32,
    pub high: i32,
    pub outside: bool,
}

impl Guard {
    // Whether the event triggers the guard.
    pub fn triggers(self, event: Label) -> bool
        ensures { result ≡ triggered self event }
    {
        let inside = (self.low..=self.high).contains(&event.value);
        self.variable == event.variable && inside != self.outside
    }
}

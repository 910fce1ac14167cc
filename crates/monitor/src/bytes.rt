// The bytes of tables: arcs and guards.
ghost use Rattle.std.specs.Prelude.{◌≡◌, ◌<◌, ◌&&◌, ◌==◌, [], length, slice_index_or};
ghost use Rattle.monitor.specs.Guards.{guard_at, triggers};
ghost use Rattle.monitor.specs.Tables.{arc_at, guard_lawful, listed_guard as listed_guard_of};

use crate::guard::Guard;
use history::Label;

// The bytes of a guard and of an arc.
pub(crate) const GUARD: usize = 10;

pub(crate) const ARC: usize = 3;

// An arc of a table: the state that it leaves, the number of its guard, the state that it leads to.
#[derive(Clone, Copy)]
pub(crate) struct Arc {
    pub(crate) from: u8,
    pub(crate) guard: u8,
    pub(crate) to: u8,
}

impl From<&[u8; ARC]> for Arc {
    ghost from_gives = { λ bytes arc. arc ≡ arc_at bytes.now 0 };

    fn from(bytes: &[u8; ARC]) -> Self {
        let &[from, guard, to] = bytes;
        Arc { from, guard, to }
    }
}

impl Arc {
    // Whether the arc leads on from the state with the event.
    pub(crate) fn leads(self, guards: &[[u8; GUARD]], from: u8, event: Label) -> bool
        requires { self.guard < length guards.now }
        ensures { result ≡ ((self.from == from) && triggers (guard_at (slice_index_or guards.now self.guard []) 0) event) }
    {
        self.from == from && Guard::from(&guards[usize::from(self.guard)]).triggers(event)
    }
}

impl From<&[u8; GUARD]> for Guard {
    ghost from_gives = { λ bytes guard. guard ≡ guard_at bytes.now 0 };

    fn from(bytes: &[u8; GUARD]) -> Self {
        let &[variable, l0, l1, l2, l3, h0, h1, h2, h3, outside] = bytes;
        Guard {
            variable,
            low: i32::from_be_bytes([l0, l1, l2, l3]),
            high: i32::from_be_bytes([h0, h1, h2, h3]),
            outside: outside == 1,
        }
    }
}

// Whether the outside byte of a guard is 0 or 1.
pub(crate) fn is_guard(bytes: &[u8; GUARD]) -> bool
    ensures { result ≡ guard_lawful bytes.now 0 }
{
    matches!(bytes, [.., 0 | 1])
}

// Guard k of a list of guard bytes, where all its bytes are there and its outside byte is 0 or 1.
pub fn listed_guard(bytes: &[u8], k: u8) -> Option<Guard>
    ensures { result ≡ listed_guard_of bytes.now k }
{
    let (guards, _) = bytes.as_chunks::<GUARD>();
    let guard = guards.get(usize::from(k))?;
    is_guard(guard).then(|| Guard::from(guard))
}

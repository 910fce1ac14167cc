// One pass over the items of a line at one event, the judge's innermost work.
ghost use Rattle.std.specs.Prelude.{◌≡◌, ◌-◌, ◌^◌, ◌<◌, ◌≤◌, length};
ghost use Rattle.history.specs.Histories.{nth};
ghost use Rattle.rule.specs.Passes.{triggered as triggered_by, low as low_of, put as put_of, keep as keep_of, valued as valued_of, passed as passed_of, begun};

use history::Label;
use monitor::Guard;

// What a pass has come to. The values still to be taken are the bits of `stack`, the last one lowest. `ahead` holds the bits of
// the temporal items still to come at the position looked at, `here` those worked out for this one, and `weight` is the next
// bit's.
#[derive(Clone, Copy)]
pub(crate) struct Pass {
    pub(crate) stack: u64,
    pub(crate) ahead: u64,
    pub(crate) here: u64,
    pub(crate) weight: u64,
}

// The guards that a line's letters name, at an event.
#[derive(Clone, Copy)]
pub(crate) struct Letters<'a> {
    pub(crate) guards: &'a [Guard],
    pub(crate) event: Label,
}

impl Letters<'_> {
    // Whether the event triggers the guard that the letter names.
    fn hold(&self, letter: u8) -> bool
        ensures { result ≡ triggered_by self.now.event (nth self.now.guards.now (letter - 96)) }
    {
        let Some(k) = letter.checked_sub(b'a') else {
            return false;
        };
        match self.guards.get(usize::from(k)) {
            Some(guard) => guard.triggers(self.event),
            None => false,
        }
    }
}

// The lowest bit.
fn low(bits: u64) -> bool
    ensures { result ≡ low_of bits }
{
    bits % 2 == 1
}

impl Pass {
    // The value upon the rest of the stack.
    fn put(self, rest: u64, value: bool) -> Self
        requires { rest < 2 ^ 63 }
        ensures { result ≡ put_of rest self value }
    {
        Pass {
            stack: u64::from(value) + 2 * rest,
            ..self
        }
    }

    // The bit here of a temporal item.
    fn keep(self, bit: bool) -> Self
        requires weight_bound { self.weight < 2 ^ 62 }
        requires here_le_weight { self.here ≤ self.weight }
        ensures { result ≡ keep_of self bit }
    {
        Pass {
            stack: self.stack,
            ahead: self.ahead / 2,
            here: if bit {
                self.here + self.weight
            } else {
                self.here
            },
            weight: self.weight * 2,
        }
    }

    // The pass behind one more item.
    // Kept: by a rule of the project items are cases on characters.
    fn valued(self, letters: &Letters<'_>, item: u8) -> Self
        requires stack_bound { self.stack < 2 ^ 63 }
        requires weight_bound { self.weight < 2 ^ 62 }
        requires here_le_weight { self.here ≤ self.weight }
        ensures { result ≡ valued_of letters.now.guards.now letters.now.event item self }
    {
        let last = low(self.stack);
        let earlier = low(self.stack / 2);
        let looked = low(self.ahead);
        match item as char {
            '!' => self.put(self.stack / 2, !last),
            '&' => self.put(self.stack / 2 / 2, earlier && last),
            '|' => self.put(self.stack / 2 / 2, earlier || last),
            'X' | 'W' | 'Y' => self.put(self.stack / 2, looked).keep(last),
            'G' | 'H' => self
                .put(self.stack / 2, last && looked)
                .keep(last && looked),
            'F' | 'O' => self
                .put(self.stack / 2, last || looked)
                .keep(last || looked),
            'U' | 'S' => {
                let value = last || earlier && looked;
                self.put(self.stack / 2 / 2, value).keep(value)
            }
            'V' => {
                let value = last && (earlier || looked);
                self.put(self.stack / 2 / 2, value).keep(value)
            }
            _ => self.put(self.stack, letters.hold(item)),
        }
    }
}

// The pass over all items, with these bits at the position looked at.
pub(crate) fn passed(letters: &Letters<'_>, items: &[u8], ahead: u64) -> Pass
    requires { length items.now ≤ 32 }
    ensures { result ≡ passed_of letters.now.guards.now letters.now.event (begun ahead) items.now }
{
    let mut pass = Pass {
        stack: 0,
        ahead,
        here: 0,
        weight: 1,
    };
    for item in items {
        pass = pass.valued(letters, *item);
    }
    pass
}

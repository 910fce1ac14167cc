// Reading the items of a line: how many values wait to be taken, how many temporal items came, and their bits behind the last
// position.
ghost use Rattle.std.specs.Prelude.{◌≡◌, ◌^◌, ◌<◌, ◌≤◌, length};
ghost use Rattle.rule.specs.Kinds.{back};
ghost use Rattle.rule.specs.Outlines.{takes as takes_of, counts as counts_of, stepped as stepped_of, closed as closed_of, outlined as outlined_of, untaken};

use crate::kind::Kind;
use history::{Refusal, Refused};

// The most temporal items of a line.
const TEMPORAL: u8 = 6;

#[derive(Clone, Copy, Default)]
pub(crate) struct Progress {
    pub(crate) depth: u8,
    pub(crate) temporal: u8,
    pub(crate) end: u64,
}

impl Progress {
    // That many values are taken, and one is given.
    fn takes(self, values: u8) -> Result<Progress, Refusal>
        requires { self.depth < 255 }
        ensures { result ≡ takes_of values self }
    {
        if self.depth < values {
            return Err(Refusal::MissingOperand);
        }
        Ok(Progress {
            depth: self.depth - values + 1,
            ..self
        })
    }

    // A temporal item, with its bit behind the last position.
    fn counts(self, bit: bool) -> Result<Progress, Refusal>
        requires { self.end < 2 ^ self.temporal }
        ensures { result ≡ counts_of bit self }
    {
        if self.temporal >= TEMPORAL {
            return Err(Refusal::TooManyTemporalItems);
        }
        let weight = 1 << self.temporal;
        Ok(Progress {
            depth: self.depth,
            temporal: self.temporal + 1,
            end: if bit { self.end + weight } else { self.end },
        })
    }

    // The progress behind one more item.
    // Kept: by a rule of the project items are cases on characters.
    fn stepped(self, kind: Kind, guards: u8, item: u8) -> Result<Progress, Refusal>
        requires depth_bound { self.depth < 255 }
        requires end_bound { self.end < 2 ^ self.temporal }
        ensures { result ≡ stepped_of (back kind) guards item self }
    {
        match (kind, item as char) {
            (_, '!') => self.takes(1),
            (_, '&' | '|') => self.takes(2),
            (Kind::Future, 'X' | 'W') => self.takes(1)?.counts(item == b'W'),
            (Kind::Future, 'F') | (Kind::Past, 'Y' | 'O') => self.takes(1)?.counts(false),
            (Kind::Future, 'G') | (Kind::Past, 'H') => self.takes(1)?.counts(true),
            (Kind::Future, 'U') | (Kind::Past, 'S') => self.takes(2)?.counts(false),
            (Kind::Future, 'V') => self.takes(2)?.counts(true),
            (_, 'a'..='z') if item - b'a' < guards => self.takes(0),
            _ => Err(Refusal::UnknownItem),
        }
    }
}

// The progress behind all items, or the first refusal with its index in the line, where the kind stands at index 0.
pub(crate) fn outlined(kind: Kind, guards: u8, items: &[u8]) -> Result<Progress, Refused>
    requires { length items.now ≤ 32 }
    ensures { result ≡ outlined_of (back kind) guards untaken 1 items.now }
{
    let mut progress = Progress::default();
    for (k, item) in items.iter().enumerate() {
        progress = progress
            .stepped(kind, guards, *item)
            .map_err(|refusal| refusal.at(k as u16 + 1))?;
    }
    closed(progress, items.len() as u16 + 1)
}

// One value must be left.
fn closed(progress: Progress, length: u16) -> Result<Progress, Refused>
    ensures { result ≡ closed_of length progress }
{
    match progress.depth {
        0 => Err(Refusal::MissingOperand.at(length)),
        1 => Ok(progress),
        _ => Err(Refusal::UnusedValue.at(length)),
    }
}

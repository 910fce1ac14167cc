// How refusals and clocks are printed.
ghost use Rattle.history.specs.Shown.{refusal_line, clock_words};
ghost use Rattle.std.specs.Prelude.{Some};

use crate::Refused;
use std::fmt;

// As `refused 5 at 2`.
impl fmt::Display for Refused {
    ghost output = { λ why. Some (refusal_line why) };

    fn fmt<W: fmt::Write>(&self, f: &mut fmt::Formatter<W>) -> fmt::Result {
        let number = self.refusal.number();
        let place = self.place;
        write!(f, "refused {number} at {place}")
    }
}

// The eight counts of a vector clock.
#[derive(Clone, Copy, Drop)]
pub struct Counts(pub [u8; 8]);

// As `1 1 0 0 0 0 0 0`.
impl fmt::Display for Counts {
    ghost output = { λ v. Some (clock_words v.0) };

    fn fmt<W: fmt::Write>(&self, f: &mut fmt::Formatter<W>) -> fmt::Result {
        let [a, b, c, d, e, g, h, i] = self.0;
        write!(f, "{a} {b} {c} {d}")?;
        write!(f, " {e} {g} {h} {i}")
    }
}

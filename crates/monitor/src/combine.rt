// Combinations of monitors: either, both, and only the events of some variables.
ghost use Rattle.std.specs.Prelude.{◌≡◌, ◌*◌, false};
ghost use Rattle.monitor.specs.Combinations.{limited, either, both, only, hears};
ghost use Rattle.monitor.specs.Numbering.{part_of, pair_of, sum_sizes, product_sizes};
ghost use Rattle.monitor.specs.Asked.{Answers, OfPart, OfPair};
ghost use Rattle.monitor.specs.Driven.{EitherDriven, BothDriven, OnlyDriven};
ghost use Rattle.monitor.specs.Laws.{either_lawful, both_lawful, only_lawful};

use crate::interface::Monitor;
use history::Label;

// The most states of a monitor.
const STATES: u32 = 4096;

// How many states the two parts of a combination have, and how many the whole has.
#[derive(Clone, Copy)]
struct Sizes {
    left: u16,
    right: u16,
    whole: u16,
}

// A state of one of two parts.
#[derive(Clone, Copy)]
enum Part {
    Left(u16),
    Right(u16),
}

impl Sizes {
    // Of a combination over parts with so many states, which would have `size`.
    // Kept: 0 is no flag. By the rule of the interface a combination that is too large is a monitor without states.
    fn new(left: u16, right: u16, size: u32) -> Self
        ensures { result ≡ record { left = left; right = right; whole = limited left right size } }
    {
        let limited = left == 0 || right == 0 || size > STATES;
        Sizes {
            left,
            right,
            whole: if limited { 0 } else { size as u16 },
        }
    }

    // The part that a state belongs to where A's states come first, then B's.
    fn part(self, state: u16) -> Option<Part>
        ensures { result ≡ part_of self state }
    {
        if state >= self.whole {
            None
        } else if state < self.left {
            Some(Part::Left(state))
        } else {
            Some(Part::Right(state - self.left))
        }
    }

    // The states of the two parts that a state stands for where states are pairs.
    fn pair(self, state: u16) -> Option<(u16, u16)>
        requires { self.whole ≡ limited self.left self.right (self.left * self.right) }
        ensures { result ≡ pair_of self state }
    {
        (state < self.whole).then(|| (state / self.right, state % self.right))
    }
}

// A's states and then B's: bad where one of the two is.
#[derive(Clone, Copy, Drop)]
pub struct Either<L, R> {
    left: L,
    right: R,
}

impl<L: Monitor, R: Monitor> Either<L, R> {
    pub fn new(left: L, right: R) -> Self
        ensures parts { result ≡ record { left = left; right = right } }
        ensures driven { EitherDriven (L.Monitor.meaning result.left) (R.Monitor.meaning result.right) }
    {
        Either { left, right }
    }

    fn sizes(&self) -> Sizes
        ensures { result ≡ sum_sizes (L.Monitor.meaning self.now.left).states (R.Monitor.meaning self.now.right).states }
    {
        let left = self.left.states();
        let right = self.right.states();
        Sizes::new(left, right, u32::from(left) + u32::from(right))
    }

    // What the part that the state belongs to answers to its question; no for a number that is no state.
    fn asked<A: FnOnce(&L, u16) -> bool, B: FnOnce(&R, u16) -> bool>(
        &self,
        state: u16,
        ask_left: A,
        ask_right: B,
    ) -> bool
        requires left { A.IsAlwaysCallable ask_left }
        requires right { B.IsAlwaysCallable ask_right }
        ensures { OfPart (Answers A.FnOnce ask_left self.now.left result) (Answers B.FnOnce ask_right self.now.right result)
            (result ≡ false) (part_of (sum_sizes (L.Monitor.meaning self.now.left).states (R.Monitor.meaning self.now.right).states) state) }
    {
        match self.sizes().part(state) {
            Some(Part::Left(state)) => ask_left(&self.left, state),
            Some(Part::Right(state)) => ask_right(&self.right, state),
            None => false,
        }
    }
}

impl<L: Monitor, R: Monitor> Monitor for Either<L, R> {
    ghost meaning = { λ c. either (L.Monitor.meaning c.left) (R.Monitor.meaning c.right) };

    ghost lawful = { λ c. either_lawful (L.Monitor.meaning c.left) (R.Monitor.meaning c.right) };

    fn states(&self) -> u16 {
        self.sizes().whole
    }

    fn starts(&self, state: u16) -> bool {
        self.asked(state, L::starts, R::starts)
    }

    fn is_bad(&self, state: u16) -> bool {
        self.asked(state, L::is_bad, R::is_bad)
    }

    fn steps(&self, from: u16, event: Label, to: u16) -> bool {
        let sizes = self.sizes();
        match (sizes.part(from), sizes.part(to)) {
            (Some(Part::Left(from)), Some(Part::Left(to))) => self.left.steps(from, event, to),
            (Some(Part::Right(from)), Some(Part::Right(to))) => self.right.steps(from, event, to),
            _ => false,
        }
    }
}

// Pairs of a state of each: bad where both are.
#[derive(Clone, Copy, Drop)]
pub struct Both<L, R> {
    left: L,
    right: R,
}

impl<L: Monitor, R: Monitor> Both<L, R> {
    pub fn new(left: L, right: R) -> Self
        ensures parts { result ≡ record { left = left; right = right } }
        ensures driven { BothDriven (L.Monitor.meaning result.left) (R.Monitor.meaning result.right) }
    {
        Both { left, right }
    }

    // Kept: beside `sizes` of `Either`, which differs in one operator; one function would take the operator and both parts.
    fn sizes(&self) -> Sizes
        ensures { result ≡ product_sizes (L.Monitor.meaning self.now.left).states (R.Monitor.meaning self.now.right).states }
    {
        let left = self.left.states();
        let right = self.right.states();
        Sizes::new(left, right, u32::from(left) * u32::from(right))
    }

    // Whether each part says yes to its question; no for a number that is no state.
    fn asked<A: FnOnce(&L, u16) -> bool, B: FnOnce(&R, u16) -> bool>(
        &self,
        state: u16,
        ask_left: A,
        ask_right: B,
    ) -> bool
        requires left { A.IsAlwaysCallable ask_left }
        requires right { B.IsAlwaysCallable ask_right }
        ensures { OfPair (Answers A.FnOnce ask_left self.now.left) (Answers B.FnOnce ask_right self.now.right) result
            (pair_of (product_sizes (L.Monitor.meaning self.now.left).states (R.Monitor.meaning self.now.right).states) state) }
    {
        let Some((left, right)) = self.sizes().pair(state) else {
            return false;
        };
        ask_left(&self.left, left) && ask_right(&self.right, right)
    }
}

impl<L: Monitor, R: Monitor> Monitor for Both<L, R> {
    ghost meaning = { λ c. both (L.Monitor.meaning c.left) (R.Monitor.meaning c.right) };

    ghost lawful = { λ c. both_lawful (L.Monitor.meaning c.left) (R.Monitor.meaning c.right) };

    fn states(&self) -> u16 {
        self.sizes().whole
    }

    fn starts(&self, state: u16) -> bool {
        self.asked(state, L::starts, R::starts)
    }

    fn is_bad(&self, state: u16) -> bool {
        self.asked(state, L::is_bad, R::is_bad)
    }

    fn steps(&self, from: u16, event: Label, to: u16) -> bool {
        let sizes = self.sizes();
        let (Some(from), Some(to)) = (sizes.pair(from), sizes.pair(to)) else {
            return false;
        };
        self.left.steps(from.0, event, to.0) && self.right.steps(from.1, event, to.1)
    }
}

// Only the events of some variables, given by a mask with a bit for each: all others keep every state.
#[derive(Clone, Copy, Drop)]
pub struct Only<M> {
    mask: u32,
    below: M,
}

impl<M: Monitor> Only<M> {
    pub fn new(mask: u32, below: M) -> Self
        ensures parts { result ≡ record { mask = mask; below = below } }
        ensures driven { OnlyDriven result.mask (M.Monitor.meaning result.below) }
    {
        Only { mask, below }
    }
}

// Whether the variable's bit is set in the mask.
fn heard(mask: u32, variable: u8) -> bool
    ensures { result ≡ hears mask variable }
{
    variable < 32 && (mask >> variable) & 1 == 1
}

impl<M: Monitor> Monitor for Only<M> {
    ghost meaning = { λ c. only c.mask (M.Monitor.meaning c.below) };

    ghost lawful = { λ c. only_lawful c.mask (M.Monitor.meaning c.below) (M.Monitor.lawful c.below) };

    fn states(&self) -> u16 {
        self.below.states()
    }

    fn starts(&self, state: u16) -> bool {
        self.below.starts(state)
    }

    fn is_bad(&self, state: u16) -> bool {
        self.below.is_bad(state)
    }

    fn steps(&self, from: u16, event: Label, to: u16) -> bool {
        if heard(self.mask, event.variable) {
            self.below.steps(from, event, to)
        } else {
            from < self.below.states() && from == to
        }
    }
}

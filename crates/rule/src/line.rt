// The rule line and what always holds of it.
ghost use Rattle.std.specs.Prelude.{◌≡◌, true, ◌&&◌, take, nat_le};
ghost use Rattle.rule.specs.Kinds.{back};
ghost use Rattle.rule.specs.RuleFiles.{formula_of};
ghost use Rattle.rule.specs.RuleLines.{outlines};

use crate::kind::Kind;
use crate::progress::Progress;
use monitor::Guard;

// A lawful rule line: a future line or a past one, the guards that its letters name, and its items.
// Kept: arrays with a count beside, since a line is a value of fixed size that its holder may copy, and no list of fixed capacity
// can be copied.
#[derive(Clone, Copy)]
pub struct RuleLine {
    pub(crate) kind: Kind,
    pub(crate) guards: [Guard; 26],
    pub(crate) letters: u8,
    pub(crate) items: [u8; 32],
    pub(crate) size: u8,
    pub(crate) outline: Progress,
    ghost fits: { (nat_le letters 26 && nat_le size 32) ≡ true },
    ghost lawful: { outlines outline (formula_of (record { looks_back = back kind; guards = take letters guards; items = take size items })) ≡ true },
}

// Rule files: the mark RUL, a version, a guard count, guards, and the line.
ghost use Rattle.std.specs.Prelude.{◌≡◌, ◌≤◌, true, length, take, is_ok, is_err};
ghost use Rattle.rule.specs.Parts.{Header, Listed, Shape};
ghost use Rattle.rule.specs.Driven.{LineDriven, RuleDriven};
ghost use Rattle.rule.specs.Held.{held, always_held};
ghost use Rattle.rule.specs.Reads.{LineRead};
ghost use Rattle.rule.specs.RuleFiles.{read_answer, rule_of, told};

use crate::kind::Kind;
use crate::line::RuleLine;
use crate::progress::{Progress, outlined};
use history::{Refusal, Refused};
use monitor::{Guard, Monitor, listed_guard};

const VERSION: u16 = 1;

// The bytes of a guard.
const GUARD: usize = 10;

// The most guards and items of a line.
const GUARDS: usize = 26;

const ITEMS: usize = 32;

// The file's guard count and the bytes behind it.
// Kept: a run file begins alike, but one function for both would take the mark and two refusals, for a pattern and a test.
fn header(file: &[u8]) -> Result<(u8, &[u8]), Refusal>
    ensures { Header file.now result }
{
    let [b'R', b'U', b'L', high, low, count, rest @ ..] = file else {
        return Err(Refusal::NotARuleFile);
    };
    if u16::from_be_bytes([*high, *low]) != VERSION {
        return Err(Refusal::RuleVersion);
    }
    Ok((*count, rest))
}

// The kind of a line and its items.
fn shaped(line: &[u8]) -> Result<(Kind, &[u8]), Refusal>
    ensures { Shape line.now result }
{
    if line.len() < 2 || line.len() > 1 + ITEMS {
        return Err(Refusal::LineShape);
    }
    match line {
        [b'<', items @ ..] => Ok((Kind::Past, items)),
        [b'>', items @ ..] => Ok((Kind::Future, items)),
        _ => Err(Refusal::LineShape),
    }
}

// The guards of a list.
fn listed(bytes: &[u8], count: u8) -> Result<[Guard; GUARDS], Refusal>
    requires { count ≤ 26 }
    ensures { Listed bytes.now count result }
{
    let mut guards = [Guard::default(); GUARDS];
    // Kept: k is the number that a guard is asked by. Of `array::try_from_fn` the proof did not close.
    for k in 0..count {
        guards[k as usize] = listed_guard(bytes, k).ok_or(Refusal::GuardList)?;
    }
    Ok(guards)
}

// The items, and zeros behind them.
// Kept: at most 32 items is asked here, in `outlined` and in `passed`. A type for it would be made twice for the three, and opened
// in each.
fn kept(items: &[u8]) -> [u8; ITEMS]
    requires { length items.now ≤ 32 }
    ensures { take (length items.now) result ≡ items.now }
{
    let mut kept = [0; ITEMS];
    kept[..items.len()].copy_from_slice(items);
    kept
}

// The line of a file.
fn line_of(file: &[u8]) -> Result<RuleLine, Refused>
    ensures { LineRead file.now result }
{
    let (letters, rest) = header(file)?;
    if letters as usize > GUARDS {
        return Err(Refusal::GuardList.at(0));
    }
    let guards = listed(rest, letters)?;
    let (kind, items) = shaped(&rest[GUARD * letters as usize..])?;
    let outline = outlined(kind, letters, items)?;
    Ok(RuleLine {
        kind,
        guards,
        letters,
        items: kept(items),
        size: items.len() as u8,
        outline,
    })
}

impl RuleLine {
    // The future line a!a|, which holds on every sequence.
    pub fn new() -> RuleLine
        ensures { held result ≡ always_held }
    {
        RuleLine {
            kind: Kind::Future,
            guards: [Guard::default(); GUARDS],
            letters: 1,
            items: kept(b"a!a|"),
            size: 4,
            outline: Progress {
                depth: 1,
                temporal: 0,
                end: 0,
            },
        }
    }

    // Becomes the line of a rule file.
    pub fn read(&mut self, file: &[u8]) -> Result<(), Refused>
        ensures answer { result ≡ told (read_answer file.now) }
        ensures holds { is_ok result ≡ true → held self.new ≡ rule_of file.now }
        ensures driven { is_ok result ≡ true → RuleDriven (rule_of file.now) }
        ensures monitor { is_ok result ≡ true → LineDriven (⟦<RuleLine as Monitor>⟧.meaning self.new) (read_answer file.now) }
        ensures unchanged { is_err result ≡ true → self.new ≡ self.old }
    {
        *self = line_of(file)?;
        Ok(())
    }
}

// Rule lines, read from files and run over sequences.
use crate::told::told;
use history::Label;
use monitor::Monitor;
use rule::RuleLine;
use std::alloc::{AllocError, Global};
use std::test::Fail;

// The future line a!bF|G, whenever a then b here or later, with a: variable 0 is 1, and b: variable 1 is 1.
const ANSWERED: &[u8] = b"RUL\0\x01\x02\
    \0\0\0\0\x01\0\0\0\x01\0\
    \x01\0\0\0\x01\0\0\0\x01\0\
    >a!bF|G";

// The past line a!bO|, a only after b.
const PREPARED: &[u8] = b"RUL\0\x01\x02\
    \0\0\0\0\x01\0\0\0\x01\0\
    \x01\0\0\0\x01\0\0\0\x01\0\
    <a!bO|";

const A: Label = Label {
    station: 0,
    variable: 0,
    value: 1,
};

const B: Label = Label {
    station: 0,
    variable: 1,
    value: 1,
};

// More than the states of any rule line.
const STATES: u16 = 70;

// Whether the sequence drives the line's monitor to a bad state.
fn driven(alloc: Global, line: &RuleLine, sequence: &[Label]) -> Result<bool, AllocError> {
    let mut here: Vec<u16> = (0..STATES).filter(|s| line.starts(*s)).collect(alloc)?;
    for event in sequence {
        here = after(alloc, line, &here, *event)?;
    }
    Ok(here.iter().any(|s| line.is_bad(*s)))
}

// The states to which the event can take one of these.
fn after(
    alloc: Global,
    line: &RuleLine,
    here: &[u16],
    event: Label,
) -> Result<Vec<u16>, AllocError> {
    (0..STATES)
        .filter(|t| here.iter().any(|s| line.steps(*s, event, *t)))
        .collect(alloc)
}

#[test]
fn a_is_answered_by_b(rt: HostRuntime) -> Result<(), Fail> {
    let mut line = RuleLine::new();
    assert_eq!(rt; told(line.read(ANSWERED)), Ok(()));
    assert_eq!(rt; line.states(), 5);
    assert!(rt; !driven(rt.alloc(), &line, &[A, B])?);
    assert!(rt; driven(rt.alloc(), &line, &[B, A])?);
    assert!(rt; !driven(rt.alloc(), &line, &[B, B])?);
    Ok(())
}

#[test]
fn a_is_prepared_by_b(rt: HostRuntime) -> Result<(), Fail> {
    let mut line = RuleLine::new();
    assert_eq!(rt; told(line.read(PREPARED)), Ok(()));
    assert_eq!(rt; line.states(), 4);
    assert!(rt; driven(rt.alloc(), &line, &[A, B])?);
    assert!(rt; !driven(rt.alloc(), &line, &[B, A])?);
    Ok(())
}

#[test]
fn a_refused_file_leaves_the_line(rt: HostRuntime) -> Result<(), Fail> {
    let mut line = RuleLine::new();
    assert_eq!(rt; told(line.read(ANSWERED)), Ok(()));
    assert_eq!(rt;
        told(line.read(&[b'R', b'U', b'L', 0, 1, 0, b'>', b'a'])),
        Err((15, 1))
    );
    assert!(rt; driven(rt.alloc(), &line, &[B, A])?, "the line held before");
    Ok(())
}

// What reading the file tells.
fn read(file: &[u8]) -> Result<(), (u8, u16)> {
    told(RuleLine::new().read(file))
}

#[test]
fn a_rule_file_is_looked_at_as_a_whole_first(rt: HostRuntime) {
    assert_eq!(rt; read(b"RUL\0\x01"), Err((11, 0)), "five bytes");
    assert_eq!(rt;
        read(b"RUN\0\x02\0>a"),
        Err((11, 0)),
        "the mark before the version"
    );
    assert_eq!(rt; read(b"RUL\x01\x01\0>a"), Err((12, 0)));
    assert_eq!(rt; read(b"RUL\0\x01\x01>a"), Err((13, 0)), "a guard cut short");
    assert_eq!(rt;
        read(b"RUL\0\x01\x01\0\0\0\0\0\0\0\0\0\x02>b"),
        Err((13, 0)),
        "outside 2"
    );
    assert_eq!(rt; read(b"RUL\0\x01\0"), Err((14, 0)), "no line");
    assert_eq!(rt; read(b"RUL\0\x01\0a!"), Err((14, 0)), "no kind");
}

#[test]
fn items_are_refused_byte_by_byte(rt: HostRuntime) {
    assert_eq!(rt;
        read(b"RUL\0\x01\x01\0\0\0\0\0\0\0\0\0\0>ab&"),
        Err((15, 2)),
        "no guard b"
    );
    assert_eq!(rt;
        read(b"RUL\0\x01\x01\0\0\0\0\0\0\0\0\0\0<aG"),
        Err((15, 2)),
        "the other kind's"
    );
    assert_eq!(rt;
        read(b"RUL\0\x01\x01\0\0\0\0\0\0\0\0\0\0>a&b"),
        Err((16, 2))
    );
    assert_eq!(rt;
        read(b"RUL\0\x01\x01\0\0\0\0\0\0\0\0\0\0>aGGGGGGGb"),
        Err((17, 8))
    );
    assert_eq!(rt;
        read(b"RUL\0\x01\x01\0\0\0\0\0\0\0\0\0\0>aGGGGGGU"),
        Err((16, 8)),
        "16 before 17"
    );
    assert_eq!(rt; read(b"RUL\0\x01\x01\0\0\0\0\0\0\0\0\0\0>aa"), Err((18, 3)));
}

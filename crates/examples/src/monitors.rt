// Guards, tables and combinations.
use crate::seen::Seen;
use crate::told::told;
use history::Label;
use monitor::{Both, Either, Guard, Monitor, Only, Table};

// Two guards: a is variable 0 from 1 to 1, b is variable 1 from 1 to 1.
const GUARDS: [u8; 20] = [0, 0, 0, 0, 1, 0, 0, 0, 1, 0, 1, 0, 0, 0, 1, 0, 0, 0, 1, 0];

// From state 0 with a to 1, from 1 with b to 0.
const ARCS: [u8; 6] = [0, 0, 1, 1, 1, 0];

fn set(variable: u8, value: i32) -> Label {
    Label {
        station: 0,
        variable,
        value,
    }
}

// The first state, in their succession, to which the event takes the state.
fn next<M: Monitor>(monitor: &M, from: u16, event: Label) -> Option<u16> {
    (0..monitor.states()).find(|to| monitor.steps(from, event, *to))
}

#[test]
fn guards_take_both_ends(rt: HostRuntime) {
    let guard = Guard {
        variable: 3,
        low: -2,
        high: 5,
        outside: false,
    };
    assert!(rt; guard.triggers(set(3, -2)));
    assert!(rt; guard.triggers(set(3, 5)));
    assert!(rt; !guard.triggers(set(3, 6)));
    assert!(rt; !guard.triggers(set(2, 0)), "another variable");
}

#[test]
fn guards_outside_and_low_above_high(rt: HostRuntime) {
    let outside = Guard {
        variable: 200,
        low: 5,
        high: 4,
        outside: true,
    };
    assert!(rt; outside.triggers(set(200, i32::MIN)));
    assert!(rt; outside.triggers(set(200, 5)));
    assert!(rt;
        !outside.triggers(set(1, 5)),
        "outside still asks for the variable"
    );
    let inside = Guard {
        outside: false,
        ..outside
    };
    assert!(rt; !inside.triggers(set(200, 5)), "no value is from 5 to 4");
}

#[test]
fn a_table_goes_there_and_back(rt: HostRuntime) {
    let mut table = Table::new();
    assert_eq!(rt; table.states(), 1);
    assert_eq!(rt; told(table.fill(2, 0, 2, &GUARDS, &ARCS)), Ok(()));
    assert!(rt; table.starts(0) && !table.starts(1) && table.is_bad(1) && !table.is_bad(0));
    assert_eq!(rt;
        next(&table, 0, set(0, 1)),
        Some(1),
        "a alone ends in the bad state"
    );
    assert_eq!(rt; next(&table, 1, set(1, 1)), Some(0), "a then b does not");
    assert_eq!(rt; next(&table, 0, set(1, 1)), Some(0), "no arc leads on");
    assert!(rt; !table.steps(2, set(0, 1), 2), "2 is no state");
}

#[test]
fn tables_that_are_refused(rt: HostRuntime) {
    let mut table = Table::new();
    assert_eq!(rt; told(table.fill(2, 0, 2, &GUARDS, &ARCS)), Ok(()));
    assert_eq!(rt; told(table.fill(0, 0, 0, &[], &[])), Err((19, 0)));
    assert_eq!(rt; told(table.fill(65, 0, 0, &[], &[])), Err((19, 0)));
    assert_eq!(rt;
        told(table.fill(2, 2, 0, &[], &[])),
        Err((19, 0)),
        "initial state"
    );
    assert_eq!(rt;
        told(table.fill(2, 0, 4, &[], &[])),
        Err((19, 0)),
        "mask bit"
    );
    assert_eq!(rt;
        told(table.fill(1, 0, 0, &GUARDS, &ARCS)),
        Err((19, 0)),
        "arc end"
    );
    assert_eq!(rt;
        told(table.fill(2, 0, 0, &GUARDS[0..10], &ARCS)),
        Err((19, 0)),
        "guard number"
    );
    assert_eq!(rt;
        told(table.fill(2, 0, 0, &GUARDS[0..19], &[])),
        Err((19, 0)),
        "half a guard"
    );
    assert_eq!(rt;
        told(table.fill(2, 0, 0, &GUARDS, &ARCS[0..5])),
        Err((19, 0)),
        "half an arc"
    );
    assert_eq!(rt;
        told(table.fill(2, 0, 0, &[0, 0, 0, 0, 0, 0, 0, 0, 0, 2], &[])),
        Err((19, 0)),
        "outside byte"
    );
    assert_eq!(rt; table.states(), 2, "as it was");
    assert_eq!(rt; next(&table, 0, set(0, 1)), Some(1));
    assert_eq!(rt;
        told(table.fill(64, 63, u64::MAX, &[], &[])),
        Ok(()),
        "every state may be bad"
    );
}

#[test]
fn combinations_number_their_states(rt: HostRuntime) {
    let first = Seen { variable: 0 };
    let second = Seen { variable: 1 };
    let either = Either::new(first, second);
    assert_eq!(rt; either.states(), 4);
    assert!(rt; either.starts(0) && !either.starts(1) && either.starts(2));
    assert_eq!(rt; next(&either, 2, set(1, 7)), Some(3));
    assert!(rt;
        !either.steps(0, set(0, 7), 3),
        "no step from the one part to the other"
    );
    let both = Both::new(first, second);
    assert_eq!(rt; both.states(), 4);
    assert_eq!(rt; next(&both, 0, set(1, 7)), Some(1), "state 0 × 2 + 1");
    assert_eq!(rt; next(&both, 1, set(0, 7)), Some(3));
    assert!(rt; both.is_bad(3) && !both.is_bad(1));
}

#[test]
fn only_keeps_the_states_of_other_events(rt: HostRuntime) {
    let all = Only::new(u32::MAX, Seen { variable: 40 });
    assert_eq!(rt;
        next(&all, 0, set(40, 1)),
        Some(0),
        "a variable over 31 is never heard"
    );
    let some = Only::new(2, Seen { variable: 1 });
    assert_eq!(rt; next(&some, 0, set(1, 1)), Some(1));
    let none = Only::new(1, Seen { variable: 1 });
    assert_eq!(rt; next(&none, 0, set(1, 1)), Some(0));
    assert!(rt; !none.steps(2, set(1, 1), 2), "2 is no state");
}

// Three tables of 64 states: 64 × 64 are 4096, one more factor is too many.
#[test]
fn combinations_beyond_the_limit(rt: HostRuntime) {
    let mut table = Table::new();
    assert_eq!(rt; told(table.fill(64, 0, 1, &[], &[])), Ok(()));
    let square = Both::new(table, table);
    assert_eq!(rt; square.states(), 4096);
    assert!(rt; square.starts(0) && square.is_bad(0));
    let beyond = Either::new(square, table);
    assert_eq!(rt; beyond.states(), 0);
    assert!(rt; !beyond.starts(0) && !beyond.is_bad(0) && !beyond.steps(0, set(0, 0), 0));
    assert_eq!(rt;
        Both::new(beyond, table).states(),
        0,
        "over a monitor without states"
    );
    assert_eq!(rt; Only::new(0, beyond).states(), 0);
}

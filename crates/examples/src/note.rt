// Open, note and reach.
use crate::told::{id, sets, size, told};
use history::{Event, Wait};
use sheet::Sheet;

#[test]
fn a_new_sheet_has_one_station_and_no_event(rt: HostRuntime) {
    let mut sheet = Sheet::new();
    assert_eq!(rt; size(&sheet), (1, 0));
    assert_eq!(rt; told(sheet.note(1, sets(0, 0, 0))), Err((5, 0)));
    assert_eq!(rt; told(sheet.note(0, sets(0, 0, 0))), Ok(()));
    assert_eq!(rt; size(&sheet), (1, 1));
}

#[test]
fn open_takes_one_to_eight_stations(rt: HostRuntime) {
    let mut sheet = Sheet::new();
    assert_eq!(rt; told(sheet.open(8)), Ok(()));
    assert_eq!(rt; told(sheet.note(7, sets(31, 0, 0))), Ok(()));
    assert_eq!(rt; told(sheet.open(0)), Err((3, 0)));
    assert_eq!(rt; told(sheet.open(9)), Err((3, 0)));
    assert_eq!(rt; told(sheet.open(255)), Err((3, 0)));
    assert_eq!(rt; size(&sheet), (8, 1));
    assert_eq!(rt; told(sheet.open(8)), Ok(()));
    assert_eq!(rt; size(&sheet), (8, 0));
}

// Station 1 waits for the first event of station 0.
#[test]
fn reach_counts_what_came_before_for_certain(rt: HostRuntime) {
    let mut sheet = Sheet::new();
    assert_eq!(rt; told(sheet.open(2)), Ok(()));
    assert_eq!(rt; told(sheet.note(0, sets(0, 0, 0))), Ok(()));
    assert_eq!(rt; told(sheet.note(1, sets(1, 0, 1))), Ok(()));
    let mut counts = [9; 8];
    assert_eq!(rt; told(sheet.reach(id(1, 1), &mut counts)), Ok(()));
    assert_eq!(rt; counts, [1, 1, 0, 0, 0, 0, 0, 0]);
    assert_eq!(rt; told(sheet.reach(id(0, 1), &mut counts)), Ok(()));
    assert_eq!(rt; counts, [1, 0, 0, 0, 0, 0, 0, 0]);
}

// A place that is lent keeps what it holds when reach is refused.
#[test]
fn reach_of_an_event_that_is_not_there(rt: HostRuntime) {
    let mut sheet = Sheet::new();
    assert_eq!(rt; told(sheet.note(0, sets(0, 0, 0))), Ok(()));
    let mut counts = [9; 8];
    assert_eq!(rt; told(sheet.reach(id(0, 0), &mut counts)), Err((10, 0)));
    assert_eq!(rt; told(sheet.reach(id(0, 2), &mut counts)), Err((10, 0)));
    assert_eq!(rt; told(sheet.reach(id(1, 1), &mut counts)), Err((10, 0)));
    assert_eq!(rt; told(sheet.reach(id(255, 255), &mut counts)), Err((10, 0)));
    assert_eq!(rt; counts, [9; 8]);
}

#[test]
fn the_65th_event_of_a_station_is_refused(rt: HostRuntime) {
    let mut sheet = Sheet::new();
    for _ in 0..64u8 {
        assert_eq!(rt; told(sheet.note(0, sets(0, 0, 0))), Ok(()));
    }
    assert_eq!(rt; told(sheet.note(0, sets(0, 0, 0))), Err((7, 0)));
    assert_eq!(rt;
        told(sheet.note(0, sets(0, 9, 9))),
        Err((7, 0)),
        "before the wait is looked at"
    );
    assert_eq!(rt; size(&sheet), (1, 64));
}

#[test]
fn waits_that_are_refused(rt: HostRuntime) {
    let mut sheet = Sheet::new();
    assert_eq!(rt; told(sheet.open(2)), Ok(()));
    assert_eq!(rt; told(sheet.note(0, sets(0, 0, 0))), Ok(()));
    assert_eq!(rt;
        told(sheet.note(1, sets(0, 0, 2))),
        Err((9, 0)),
        "more than there is"
    );
    assert_eq!(rt; told(sheet.note(0, sets(0, 0, 2))), Err((9, 0)), "itself");
    assert_eq!(rt;
        told(sheet.note(1, sets(0, 2, 1))),
        Err((8, 0)),
        "a station that is not on the sheet"
    );
    assert_eq!(rt; told(sheet.note(1, sets(0, 2, 0))), Err((8, 0)));
    assert_eq!(rt;
        told(sheet.note(1, sets(0, 1, 0))),
        Err((8, 0)),
        "a station named for nothing"
    );
    assert_eq!(rt;
        told(sheet.note(0, sets(0, 0, 1))),
        Ok(()),
        "its own station"
    );
    assert_eq!(rt; size(&sheet), (2, 2));
}

// The lowest number answers where several reasons apply.
#[test]
fn refusals_of_a_note_in_their_succession(rt: HostRuntime) {
    let mut sheet = Sheet::new();
    assert_eq!(rt; told(sheet.note(1, sets(32, 9, 9))), Err((5, 0)));
    assert_eq!(rt; told(sheet.note(0, sets(32, 9, 9))), Err((6, 0)));
    assert_eq!(rt; told(sheet.note(0, sets(31, 9, 9))), Err((8, 0)));
    assert_eq!(rt; told(sheet.note(0, sets(31, 0, 9))), Err((9, 0)));
    assert_eq!(rt; size(&sheet), (1, 0));
}

#[test]
fn an_event_is_kept_as_it_was_noted(rt: HostRuntime) {
    let mut sheet = Sheet::new();
    let event = Event {
        variable: 31,
        value: i32::MIN,
        wait: Wait {
            station: 0,
            count: 0,
        },
    };
    assert_eq!(rt; told(sheet.note(0, event)), Ok(()));
    assert_eq!(rt; sheet.event(id(0, 1)), Some(event));
    assert_eq!(rt; sheet.event(id(0, 0)), None);
    assert_eq!(rt; sheet.event(id(0, 2)), None);
    assert_eq!(rt; sheet.event(id(1, 1)), None);
    assert_eq!(rt; sheet.clock(id(0, 1)), Some([1, 0, 0, 0, 0, 0, 0, 0]));
    assert_eq!(rt; sheet.clock(id(0, 2)), None);
    assert_eq!(rt; sheet.events(0), 1);
    assert_eq!(rt; sheet.events(1), 0);
}

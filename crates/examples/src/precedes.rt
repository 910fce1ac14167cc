// Precedes, against a listing of all the orders that a batch allows.
use crate::told::{id, sets, told};
use history::EventId;
use sheet::Sheet;

// The orders of the batch below, as a reader lists them by hand.
const ORDERS: [[u8; 5]; 8] = [
    [0, 0, 1, 1, 2],
    [0, 0, 1, 2, 1],
    [0, 1, 0, 1, 2],
    [0, 1, 0, 2, 1],
    [0, 1, 1, 0, 2],
    [0, 1, 1, 2, 0],
    [0, 1, 2, 0, 1],
    [0, 1, 2, 1, 0],
];

// Two events of station 0; two of station 1, the first after station 0's first; one of station 2 after station 1's first.
fn batch() -> Sheet {
    let mut sheet = Sheet::new();
    let _ = sheet.open(3);
    let _ = sheet.note(0, sets(0, 0, 0));
    let _ = sheet.note(1, sets(1, 0, 1));
    let _ = sheet.note(2, sets(2, 1, 1));
    let _ = sheet.note(0, sets(3, 0, 0));
    let _ = sheet.note(1, sets(4, 0, 0));
    sheet
}

// The position of an event in an order.
fn position(order: &[u8], event: EventId) -> Option<usize> {
    let earlier = event.number.checked_sub(1)?;
    order
        .iter()
        .enumerate()
        .filter(|(_, station)| **station == event.station)
        .map(|(position, _)| position)
        .nth(usize::from(earlier))
}

fn always_earlier(first: EventId, second: EventId) -> bool {
    ORDERS.iter().all(|order| {
        position(order, first)
            .zip(position(order, second))
            .is_some_and(|(first, second)| first < second)
    })
}

#[test]
fn every_pair_of_a_batch(rt: HostRuntime) {
    let sheet = batch();
    let events = [id(0, 1), id(0, 2), id(1, 1), id(1, 2), id(2, 1)];
    for first in events {
        for second in events {
            let found = told(sheet.precedes(first, second));
            assert_eq!(rt; found, Ok(always_earlier(first, second)));
        }
    }
}

#[test]
fn precedes_of_events_that_are_not_there(rt: HostRuntime) {
    let sheet = batch();
    let there = id(0, 1);
    for missing in [id(0, 0), id(0, 3), id(3, 1), id(255, 0)] {
        assert_eq!(rt; told(sheet.precedes(missing, there)), Err((10, 0)));
        assert_eq!(rt; told(sheet.precedes(there, missing)), Err((10, 0)));
        assert_eq!(rt; told(sheet.precedes(missing, missing)), Err((10, 0)));
    }
    assert_eq!(rt;
        told(sheet.precedes(there, there)),
        Ok(false),
        "an event and itself"
    );
}

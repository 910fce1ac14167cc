// Load: run files that are taken and run files that are turned away.
use crate::told::{id, sets, size, told};
use history::{Event, Wait};
use sheet::Sheet;

// Two stations; the second's event awaits the first's.
const FILE: &[u8; 22] = b"RUN\0\x01\x02\
    \0\0\0\0\0\x01\0\0\
    \x01\x01\xff\xff\xff\xfe\0\x01";

// A sheet that holds something of its own.
fn used() -> Sheet {
    let mut sheet = Sheet::new();
    let _ = sheet.note(0, sets(5, 0, 0));
    sheet
}

#[test]
fn a_run_file_becomes_the_sheet(rt: HostRuntime) {
    let mut sheet = used();
    assert_eq!(rt; told(sheet.load(FILE)), Ok(()));
    assert_eq!(rt; size(&sheet), (2, 2));
    let wait = Wait {
        station: 0,
        count: 1,
    };
    assert_eq!(rt;
        sheet.event(id(1, 1)),
        Some(Event {
            variable: 1,
            value: -2,
            wait,
        })
    );
    assert_eq!(rt; sheet.clock(id(1, 1)), Some([1, 1, 0, 0, 0, 0, 0, 0]));
}

// What load answers on a used sheet, and the size of the sheet then.
fn loaded(file: &[u8]) -> (Result<(), (u8, u16)>, (u8, u16)) {
    let mut sheet = used();
    let answer = told(sheet.load(file));
    (answer, size(&sheet))
}

// A refusal, which leaves the used sheet.
fn refused(number: u8, place: u16) -> (Result<(), (u8, u16)>, (u8, u16)) {
    (Err((number, place)), (1, 1))
}

// Every file cut short answers its refusal and leaves the sheet, but for those that end behind a whole record.
#[test]
fn truncations(rt: HostRuntime) {
    // Kept: n is no index, but how long the file is.
    for n in 0..FILE.len() {
        let found = loaded(&FILE[..n]);
        match n {
            0..=5 => assert_eq!(rt; found, refused(1, 0)),
            6 | 14 => assert_eq!(rt; found.0, Ok(())),
            _ => assert_eq!(rt; found, refused(4, 0)),
        }
    }
}

// One byte of the file changed: what load answers then.
fn with(at: usize, byte: u8) -> (Result<(), (u8, u16)>, (u8, u16)) {
    let mut file = *FILE;
    if let Some(place) = file.get_mut(at) {
        *place = byte;
    }
    loaded(&file)
}

#[test]
fn a_wrong_byte_of_the_header(rt: HostRuntime) {
    assert_eq!(rt; with(0, 114), refused(1, 0));
    assert_eq!(rt; with(1, 0), refused(1, 0));
    assert_eq!(rt; with(2, 76), refused(1, 0));
    assert_eq!(rt; with(3, 1), refused(2, 0));
    assert_eq!(rt; with(4, 0), refused(2, 0));
    assert_eq!(rt; with(4, 2), refused(2, 0));
    assert_eq!(rt; with(5, 0), refused(3, 0));
    assert_eq!(rt; with(5, 9), refused(3, 0));
}

#[test]
fn a_wrong_byte_of_a_record(rt: HostRuntime) {
    assert_eq!(rt; with(6, 2), refused(5, 1));
    assert_eq!(rt; with(7, 32), refused(6, 1));
    assert_eq!(rt; with(12, 1), refused(8, 1));
    assert_eq!(rt; with(13, 1), refused(9, 1));
    assert_eq!(rt; with(14, 2), refused(5, 2));
    assert_eq!(rt; with(15, 32), refused(6, 2));
    assert_eq!(rt; with(20, 2), refused(8, 2));
    assert_eq!(rt; with(21, 2), refused(9, 2));
    assert_eq!(rt; with(21, 0).0, Ok(()));
}

// 64 events of one station, and one more.
#[test]
fn a_file_with_a_65th_event(rt: HostRuntime) {
    let mut file = [0u8; 526];
    file[..6].copy_from_slice(b"RUN\0\x01\x01");
    let mut sheet = used();
    assert_eq!(rt; told(sheet.load(&file)), Err((7, 65)));
    assert_eq!(rt; size(&sheet), (1, 1));
    assert_eq!(rt; told(sheet.load(&file[..518])), Ok(()));
    assert_eq!(rt; size(&sheet), (1, 64));
}

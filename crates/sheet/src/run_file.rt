// Run files: the mark RUN, a version, a station count, and records.
ghost use Rattle.sheet.specs.Headers.{Header};

use crate::table::is_station_count;
use history::Refusal;

const VERSION: u16 = 1;

// The bytes of a record.
const RECORD: usize = 8;

// The file's station count and the bytes of its records.
// Kept: a rule file begins alike, but one function for both would take the mark and two refusals, for a pattern and a test.
pub(crate) fn header(file: &[u8]) -> Result<(u8, &[u8]), Refusal>
    ensures { Header file.now result }
{
    let [b'R', b'U', b'N', high, low, stations, records @ ..] = file else {
        return Err(Refusal::NotARunFile);
    };
    if u16::from_be_bytes([*high, *low]) != VERSION {
        return Err(Refusal::RunVersion);
    }
    if !is_station_count(*stations) {
        return Err(Refusal::StationCount);
    }
    if records.len() % RECORD != 0 {
        return Err(Refusal::PartialRecord);
    }
    Ok((*stations, records))
}

// What a call told its caller, and values that tests make.
ghost use Rattle.std.specs.Prelude.{◌≡◌, pos, Ok, Err, length, MatchResult};
ghost use Rattle.history.specs.Histories.{total};
ghost use Rattle.history.specs.Refusals.{number};
ghost use Rattle.sheet.specs.Sheets.{history};

use history::{Event, EventId, Refused, Wait};
use sheet::Sheet;

// The answer, with number and place of its refusal.
pub fn told<T>(answer: Result<T, Refused>) -> Result<T, (u8, u16)>
    ensures { MatchResult answer (λ x. result ≡ Ok x) (λ why. result ≡ Err (number why.refusal, why.place)) }
{
    answer.map_err(|refused| (refused.refusal.number(), refused.place))
}

pub fn id(station: u8, number: u8) -> EventId
    ensures { result ≡ record { station = station; number = number } }
{
    EventId { station, number }
}

// An event that sets a variable to 1 and awaits the first `count` events of a station.
pub fn sets(variable: u8, station: u8, count: u8) -> Event
    ensures { result ≡ record { variable = variable; value = pos 1; wait = record { station = station; count = count } } }
{
    let wait = Wait { station, count };
    Event {
        variable,
        value: 1,
        wait,
    }
}

// Stations and events of the sheet.
pub fn size(sheet: &Sheet) -> (u8, u16)
    ensures stations { result.0 ≡ length (history sheet.now) }
    ensures events { result.1 ≡ total (history sheet.now) }
{
    (sheet.stations(), sheet.total())
}

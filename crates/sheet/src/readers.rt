// What can be read of a sheet. A station that is not on the sheet holds no event.
ghost use Rattle.std.specs.Prelude.{◌≡◌, length};
ghost use Rattle.history.specs.Clocks.{Clocked};
ghost use Rattle.history.specs.Histories.{count, event as event_of, total};
ghost use Rattle.sheet.specs.Sheets.{history};
ghost use Rattle.sheet.specs.Tables.{event_in, clock_in};
ghost use Rattle.std.specs.Option.{option_map};

use crate::table::Slot;
use crate::types::Sheet;
use history::{Event, EventId};

impl Sheet {
    // How many stations the sheet has.
    pub fn stations(&self) -> u8
        ensures { result ≡ length (history self.now) }
    {
        self.table.stations()
    }

    // How many events the station holds: none where it is not on the sheet.
    pub fn events(&self, station: u8) -> u8
        ensures { result ≡ count (history self.now) station }
    {
        self.table.events(station)
    }

    // How many events all stations hold.
    pub fn total(&self) -> u16
        ensures { result ≡ total (history self.now) }
    {
        self.table.total()
    }

    // The event, where it is there. Numbers are counted from 1.
    pub fn event(&self, event: EventId) -> Option<Event>
        ensures { result ≡ event_of (history self.now) event.station event.number }
    {
        Some(self.slot(event)?.event)
    }

    // The event's clock.
    pub fn clock(&self, event: EventId) -> Option<[u8; 8]>
        ensures { Clocked (history self.now) event.station event.number result }
    {
        Some(self.slot(event)?.clock)
    }

    // The event with its clock.
    fn slot(&self, event: EventId) -> Option<Slot>
        ensures event { option_map event_in result ≡ event_of (history self.now) event.station event.number }
        ensures clock { Clocked (history self.now) event.station event.number (option_map clock_in result) }
    {
        self.table.slot(event)
    }
}

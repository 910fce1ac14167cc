// The table of a sheet: for each station its events with their clocks. Plain values, without an invariant.
ghost use Rattle.std.specs.Prelude.{◌≡◌, ◌<◌, ◌≤◌, [], ◌∷◌, ◌++◌, length, replicate, slice_set, MatchOption};
ghost use Rattle.history.specs.Histories.{nth};
ghost use Rattle.history.specs.Notes.{allowed_count};
ghost use Rattle.sheet.specs.Tables.{filled, there, rows, row, slot_count, counts, next_clock};

use crate::clocks::merged;
use history::{Event, EventId, Wait};

// The most events of a station, and the most stations.
pub(crate) const EVENTS: usize = 64;

pub(crate) const STATIONS: usize = 8;

// Whether a sheet may have that many stations.
pub(crate) fn is_station_count(count: u8) -> bool
    ensures { result ≡ allowed_count count }
{
    count >= 1 && count as usize <= STATIONS
}

// An event and its clock.
#[derive(Clone, Copy, Default)]
pub(crate) struct Slot {
    pub(crate) event: Event,
    pub(crate) clock: [u8; 8],
}

// The first `len` slots hold the station's events, the first event first.
// Kept: arrays with a count beside, here and in the table. A list of fixed capacity shows a contract only what it holds, and a
// refused call leaves every slot of a sheet, those too that no call can read.
#[derive(Clone, Copy)]
pub(crate) struct Station {
    slots: [Slot; EVENTS],
    len: u8,
}

// The first `count` stations are the table's.
#[derive(Clone, Copy)]
pub(crate) struct Table {
    stations: [Station; STATIONS],
    count: u8,
}

impl Station {
    fn empty() -> Station
        ensures { filled result ≡ [] }
    {
        Station {
            slots: [Slot::default(); EVENTS],
            len: 0,
        }
    }

    // The slots of its events.
    fn held(&self) -> &[Slot]
        ensures is { result.now ≡ filled self.now }
        ensures few { length result.now ≤ 64 }
    {
        &self.slots[..usize::from(self.len).min(EVENTS)]
    }

    fn events(&self) -> u8
        ensures is { result ≡ length (filled self.now) }
        ensures few { result ≤ 64 }
    {
        self.held().len() as u8
    }

    // The slot of the event of that number, counted from 1.
    fn slot(&self, number: u8) -> Option<Slot>
        ensures { result ≡ nth (filled self.now) number }
    {
        let index = number.checked_sub(1)?;
        self.held().get(index as usize).copied()
    }

    fn push(&mut self, slot: Slot)
        requires { length (filled self.old) < 64 }
        ensures { filled self.new ≡ filled self.old ++ slot ∷ [] }
    {
        self.slots[self.len as usize] = slot;
        self.len += 1;
    }
}

impl Table {
    // That many stations without an event.
    pub(crate) fn new(count: u8) -> Table
        requires { count ≤ 8 }
        ensures { rows result ≡ replicate count [] }
    {
        Table {
            stations: [Station::empty(); STATIONS],
            count,
        }
    }

    // The stations that the table has.
    fn there(&self) -> &[Station]
        ensures is { result.now ≡ there self.now }
        ensures few { length result.now ≤ 8 }
    {
        &self.stations[..usize::from(self.count).min(STATIONS)]
    }

    // How many stations there are.
    pub(crate) fn stations(&self) -> u8
        ensures { result ≡ length (rows self.now) }
    {
        self.there().len() as u8
    }

    // The station, where it is there.
    fn station(&self, station: u8) -> Option<&Station>
        ensures { MatchOption result (row self.now station ≡ []) (λ x. filled x.now ≡ row self.now station) }
    {
        if station >= self.count {
            return None;
        }
        self.stations.get(station as usize)
    }

    // How many events the station holds: none where it is not there.
    pub(crate) fn events(&self, station: u8) -> u8
        ensures is { result ≡ length (row self.now station) }
        ensures few { result ≤ 64 }
    {
        self.station(station).map_or(0, Station::events)
    }

    // How many events all stations hold.
    pub(crate) fn total(&self) -> u16
        ensures { result ≡ slot_count self.now }
    {
        self.there()
            .iter()
            .map(|station| u16::from(station.events()))
            .sum()
    }

    pub(crate) fn slot(&self, event: EventId) -> Option<Slot>
        ensures { result ≡ nth (row self.now event.station) event.number }
    {
        self.station(event.station)?.slot(event.number)
    }

    // The event's clock, all zeros where it is not there.
    fn clock(&self, event: EventId) -> [u8; 8]
        ensures { result ≡ counts (nth (row self.now event.station) event.number) }
    {
        match self.slot(event) {
            Some(slot) => slot.clock,
            None => [0; 8],
        }
    }

    // The clock of the station's next event, with that wait.
    pub(crate) fn next_clock(&self, station: u8, wait: Wait) -> [u8; 8]
        requires { station < 8 }
        ensures { result ≡ next_clock self.now station wait }
    {
        let number = self.events(station);
        let previous = self.clock(EventId { station, number });
        let awaited = self.clock(EventId {
            station: wait.station,
            number: wait.count,
        });
        let mut clock = merged(previous, awaited);
        clock[station as usize] = number + 1;
        clock
    }

    // One slot more at the end of the station.
    pub(crate) fn push(&mut self, station: u8, slot: Slot)
        requires there { station < length (rows self.old) }
        requires room { length (row self.old station) < 64 }
        ensures { rows self.new ≡ slice_set (rows self.old) station (row self.old station ++ slot ∷ []) }
    {
        let one = &mut self.stations[station as usize];
        one.push(slot);
    }
}

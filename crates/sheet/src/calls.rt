// The calls of a sheet: new, open, note, load, reach and precedes.
ghost use Rattle.std.specs.Prelude.{◌≡◌, true, is_err, Ok};
ghost use Rattle.history.specs.Histories.{fresh, opened, noted, total};
ghost use Rattle.history.specs.Notes.{allowed_count, note_answer, after_note, open_answer, after_open, placed as at_place};
ghost use Rattle.history.specs.Clocks.{Reached};
ghost use Rattle.history.specs.Precedence.{Preceded};
ghost use Rattle.history.specs.RunFiles.{load_answer, loaded, told};
ghost use Rattle.sheet.specs.Sheets.{history, NotedAll};

use crate::run_file::header;
use crate::table::{EVENTS, Slot, Table, is_station_count};
use crate::types::Sheet;
use history::{Event, EventId, Refusal, Refused, Wait};

// The largest variable.
const VARIABLES: u8 = 31;

impl Sheet {
    // A sheet of one station without an event.
    pub fn new() -> Sheet
        ensures { history result ≡ fresh }
    {
        Sheet::empty(1)
    }

    // A sheet of that many stations without an event.
    fn empty(count: u8) -> Sheet
        requires { allowed_count count ≡ true }
        ensures { history result ≡ opened count }
    {
        Sheet {
            table: Table::new(count),
        }
    }

    // The first reason that applies when the event is noted to the station.
    fn accepts(&self, station: u8, event: Event) -> Result<(), Refusal>
        ensures { result ≡ note_answer (history self.now) station event }
    {
        let Wait {
            station: awaited,
            count,
        } = event.wait;
        if station >= self.stations() {
            return Err(Refusal::NoSuchStation);
        }
        if event.variable > VARIABLES {
            return Err(Refusal::VariableRange);
        }
        if self.events(station) as usize >= EVENTS {
            return Err(Refusal::StationFull);
        }
        if awaited >= self.stations() || count == 0 && awaited != 0 {
            return Err(Refusal::AwaitedStation);
        }
        if count > self.events(awaited) {
            return Err(Refusal::AwaitedCount);
        }
        Ok(())
    }

    // Puts an event that is accepted at the end of the station, with its clock.
    fn append(&mut self, station: u8, event: Event)
        requires { note_answer (history self.old) station event ≡ Ok tt }
        ensures { history self.new ≡ noted (history self.old) station event }
    {
        let clock = self.table.next_clock(station, event.wait);
        self.table.push(station, Slot { event, clock });
    }

    // Notes the event, or says why not.
    // Kept: station and event. A struct of both would be made for each call, and taken to pieces where the event is tried and put.
    fn put(&mut self, station: u8, event: Event) -> Result<(), Refusal>
        ensures answer { result ≡ note_answer (history self.old) station event }
        ensures after { history self.new ≡ after_note (history self.old) station event }
        ensures kept { is_err result ≡ true → self.new ≡ self.old }
    {
        self.accepts(station, event)?;
        self.append(station, event);
        Ok(())
    }

    // Makes the sheet that many empty stations.
    pub fn open(&mut self, count: u8) -> Result<(), Refused>
        ensures answer { result ≡ at_place 0 (open_answer count) }
        ensures after { history self.new ≡ after_open (history self.old) count }
        ensures kept { is_err result ≡ true → self.new ≡ self.old }
    {
        if !is_station_count(count) {
            Err(Refusal::StationCount)?;
        }
        *self = Sheet::empty(count);
        Ok(())
    }

    // Notes one event at the end of a station.
    pub fn note(&mut self, station: u8, event: Event) -> Result<(), Refused>
        ensures answer { result ≡ at_place 0 (note_answer (history self.old) station event) }
        ensures after { history self.new ≡ after_note (history self.old) station event }
        ensures kept { is_err result ≡ true → self.new ≡ self.old }
    {
        self.put(station, event)?;
        Ok(())
    }

    // Notes the records one after another.
    fn note_all(&mut self, records: &[u8]) -> Result<(), Refused>
        requires { total (history self.old) ≡ 0 }
        ensures { NotedAll (history self.old) records.now (history self.new) result }
    {
        let (chunks, _) = records.as_chunks::<8>();
        for (k, record) in chunks.iter().enumerate() {
            let number = k as u16 + 1;
            // Kept: by a rule of the project a pattern names the eight bytes of a record.
            let [station, variable, a, b, c, d, awaited, count] = *record;
            let wait = Wait {
                station: awaited,
                count,
            };
            let event = Event {
                variable,
                value: i32::from_be_bytes([a, b, c, d]),
                wait,
            };
            self.put(station, event)
                .map_err(|refusal| refusal.at(number))?;
        }
        Ok(())
    }

    // Takes the records of a run file in turn as notes on a spare sheet of the file's station count, which becomes the sheet
    // if none is refused.
    pub fn load(&mut self, file: &[u8]) -> Result<(), Refused>
        ensures answer { result ≡ told (load_answer file.now) }
        ensures after { history self.new ≡ loaded (history self.old) (load_answer file.now) }
        ensures kept { is_err result ≡ true → self.new ≡ self.old }
    {
        let (stations, records) = header(file)?;
        let mut spare = Sheet::empty(stations);
        spare.note_all(records)?;
        *self = spare;
        Ok(())
    }

    // Writes the event's clock into the place lent.
    pub fn reach(&self, event: EventId, counts: &mut [u8; 8]) -> Result<(), Refused>
        ensures { Reached (history self.now) event.station event.number counts.old counts.new result }
    {
        *counts = self.clock(event).ok_or(Refusal::NoSuchEvent)?;
        Ok(())
    }

    // Whether the first event comes earlier than the second in every compatible order.
    pub fn precedes(&self, first: EventId, second: EventId) -> Result<bool, Refused>
        ensures { Preceded (history self.now) first second result }
    {
        self.clock(first).ok_or(Refusal::NoSuchEvent)?;
        let reach = self.clock(second).ok_or(Refusal::NoSuchEvent)?;
        Ok(first != second && first.number <= reach[first.station as usize])
    }
}

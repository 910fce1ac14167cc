// The lines that are printed, as values that know how they are written.
ghost use Rattle.std.specs.Prelude.{◌≡◌, length, Some};
ghost use Rattle.inspect.specs.Lines.{heading_line, setting_words, wait_words, event_line, LineOf};
ghost use Rattle.history.specs.Histories.{total as all_events};
ghost use Rattle.sheet.specs.Sheets.{history};

use history::{Counts, Event, EventId, Wait};
use sheet::Sheet;
use std::fmt;

// How many stations and events the sheet has.
#[derive(Clone, Copy)]
pub struct Heading {
    stations: u8,
    events: u16,
}

impl Heading {
    pub fn of(sheet: &Sheet) -> Heading
        ensures { ⟦<Heading as fmt::Display>⟧.output result ≡ Some (heading_line (length (history sheet.now)) (all_events (history sheet.now))) }
    {
        Heading {
            stations: sheet.stations(),
            events: sheet.total(),
        }
    }
}

impl fmt::Display for Heading {
    ghost output = { λ h. Some (heading_line h.stations h.events) };

    fn fmt<W: fmt::Write>(&self, f: &mut fmt::Formatter<W>) -> fmt::Result {
        let Heading { stations, events } = *self;
        write!(f, "stations {stations}, events {events}")
    }
}

// What an event waits for.
#[derive(Clone, Copy)]
struct Awaited(Wait);

impl fmt::Display for Awaited {
    ghost output = { λ w. Some (wait_words w.0) };

    fn fmt<W: fmt::Write>(&self, f: &mut fmt::Formatter<W>) -> fmt::Result {
        let Wait { station, count } = self.0;
        if count == 0 {
            return f.write_str("nothing");
        }
        write!(f, "{count} of station {station}")
    }
}

// What an event sets.
#[derive(Clone, Copy)]
struct Setting(Event);

impl fmt::Display for Setting {
    ghost output = { λ s. Some (setting_words s.0) };

    fn fmt<W: fmt::Write>(&self, f: &mut fmt::Formatter<W>) -> fmt::Result {
        let Event {
            variable,
            value,
            wait: _,
        } = self.0;
        write!(f, "variable {variable} = {value}")
    }
}

// One event with its clock.
#[derive(Clone, Copy)]
pub struct EventLine {
    id: EventId,
    event: Event,
    clock: [u8; 8],
}

impl EventLine {
    // The line of an event of the sheet, where it is there.
    pub fn of(sheet: &Sheet, id: EventId) -> Option<EventLine>
        ensures { LineOf (history sheet.now) id result }
    {
        let clock = sheet.clock(id)?;
        let event = sheet.event(id)?;
        Some(EventLine { id, event, clock })
    }
}

impl fmt::Display for EventLine {
    ghost output = { λ l. Some (event_line l.id.station l.id.number l.event l.clock) };

    fn fmt<W: fmt::Write>(&self, f: &mut fmt::Formatter<W>) -> fmt::Result {
        let EventId { station, number } = self.id;
        let set = Setting(self.event);
        let awaited = Awaited(self.event.wait);
        let reach = Counts(self.clock);
        write!(
            f,
            "station {station} event {number}: {set}, waits for {awaited}, reach {reach}"
        )
    }
}

// Reads batch.run and prints what it holds.
#![tactic(auto)]

mod text;

use crate::text::{EventLine, Heading};
use history::EventId;
use sheet::Sheet;
use std::fs::File;
use std::io::Read;

// The longest file that is read.
const LIMIT: usize = 8192;

// The file's bytes, if it can be read and is not too long.
fn read(rt: &HostRuntime, path: &str) -> Option<Vec<u8>> {
    let mut bytes = Vec::new(rt.alloc());
    let file = File::open(rt, path).ok()?;
    file.take(LIMIT as u64 + 1).read_to_end(&mut bytes).ok()?;
    (bytes.len() <= LIMIT).then_some(bytes)
}

fn show(rt: &HostRuntime, sheet: &Sheet) -> anyhow::Result<()> {
    rt.println(Heading::of(sheet))?;
    // Kept: stations and numbers are the names by which a sheet is asked.
    for station in 0..sheet.stations() {
        for number in 1..=sheet.events(station) {
            if let Some(line) = EventLine::of(sheet, EventId { station, number }) {
                rt.println(line)?;
            }
        }
    }
    Ok(())
}

fn run(rt: &HostRuntime) -> anyhow::Result<()> {
    let Some(file) = read(rt, "batch.run") else {
        rt.println("unread")?;
        return Ok(());
    };
    let mut sheet = Sheet::new();
    if let Err(refused) = sheet.load(&file) {
        rt.println(refused)?;
        return Ok(());
    }
    show(rt, &sheet)
}

fn main(rt: HostRuntime) -> anyhow::Result<()> {
    run(&rt)
}

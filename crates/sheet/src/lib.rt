// The batch sheet: the events of up to eight stations with their waits and their vector clocks.
#![tactic(auto)]

mod calls;
mod clocks;
mod readers;
mod run_file;
mod table;
mod types;

pub use types::Sheet;

// Monitors: automata over events that a judge runs over a sheet's orders.
#![tactic(auto)]

mod bytes;
mod combine;
mod fill;
mod guard;
mod interface;
mod parts;
mod table;

pub use bytes::listed_guard;
pub use combine::{Both, Either, Only};
pub use guard::Guard;
pub use interface::Monitor;
pub use table::Table;

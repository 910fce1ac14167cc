// Examples of every crate, as tests, and a monitor as a buyer writes one.
#![tactic(auto)]

#[cfg(test)]
mod lines;
#[cfg(test)]
mod load;
#[cfg(test)]
mod monitors;
#[cfg(test)]
mod note;
#[cfg(test)]
mod precedes;
pub mod seen;
#[cfg(test)]
mod told;

// Rule lines: read from a rule file into a monitor.
#![tactic(auto)]

mod automaton;
mod file;
mod kind;
mod line;
mod pass;
mod progress;

pub use automaton::rule_line_driven;
pub use line::RuleLine;

//! The lines of a script as calls, and the lines that tell their outcomes.
#![tactic(auto)]

mod bytes;
mod fields;
pub mod line;
pub mod output;
pub mod reader;

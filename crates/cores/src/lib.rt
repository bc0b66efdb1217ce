//! The tables of one core: plain structs, one change a function.
#![tactic(auto)]

pub mod core_table;
mod delivery;

//! The tables of the bank, and how it serves a request.
#![tactic(auto)]

pub mod bank_table;
pub mod evicting;
mod leases;
pub mod serving;

//! The machine over any two nets, memory and lifetime policy.
#![tactic(auto)]

pub mod delivering;
pub mod evicting;
pub mod issuing;
pub mod machine;
pub mod making;
pub mod serving;
pub mod starting;
pub mod tables;

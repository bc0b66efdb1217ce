//! One lane net of two.
#![tactic(auto)]

pub mod hop;

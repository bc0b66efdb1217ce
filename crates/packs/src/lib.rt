//! A lane net that stores messages as words.
#![tactic(auto)]

mod lane;
pub mod packed;

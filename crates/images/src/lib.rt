//! A memory in blocks of bytes that tell damage.
#![tactic(auto)]

mod block;
pub mod cases;
pub mod image;

//! Trials of the parts and of the machine over them: examples and edges. They stand in one crate,
//! so that no other is proved a second time for its tests.
#![tactic(auto)]

#[cfg(test)]
mod edges;
#[cfg(test)]
mod ends;
#[cfg(test)]
mod evictions;
#[cfg(test)]
mod lane_nets;
#[cfg(test)]
mod lent_rows;
#[cfg(test)]
mod lifetime_policies;
#[cfg(test)]
mod memory_sizes;
#[cfg(test)]
mod message_words;
#[cfg(test)]
mod scenes;
#[cfg(test)]
mod script_lines;
#[cfg(test)]
mod word_memories;

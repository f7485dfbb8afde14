// The packets heard of one unique id: what is kept of them, and how a new packet is related to them.
#![tactic(auto)]

pub mod fragment;
pub mod laws;
pub mod summary;

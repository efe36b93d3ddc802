//! What a poll is told, and what the messages of a primary are true of.
#![tactic(auto)]

pub mod laws;

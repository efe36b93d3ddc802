//! The calls of a replica as events: what returned, what stopped, and what a crash leaves.
#![tactic(auto)]

pub mod laws;

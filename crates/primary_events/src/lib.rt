//! The calls of a primary as events of a world: what returned, what stopped, and what a crash leaves.
#![tactic(auto)]

pub mod laws;

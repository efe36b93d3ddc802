//! What a primary makes, as events of a world.
#![tactic(auto)]

pub mod laws;

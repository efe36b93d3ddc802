//! Histories of a database: its places, what made each of them, and what a call of the primary makes.
#![tactic(auto)]

pub mod laws;

//! Whole runs of the program as events of a primary's history, and what a crash leaves of them.
#![tactic(auto)]

pub mod laws;

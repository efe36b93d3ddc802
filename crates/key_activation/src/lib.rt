//! Which version of the master key is active, and the list of activations that says so.
#![tactic(auto)]

pub mod activations;
pub mod laws;

pub use activations::{active_at, drop_version, set};

//! What a poll of incremental propagation is told.
#![tactic(auto)]

pub mod status;

pub use status::{Status4, sno_status};

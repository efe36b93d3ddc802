//! Places in the history of a database: what leads from one to the next, and which changes may.
#![tactic(auto)]

pub mod applying;
pub mod laws;

pub use applying::may_apply;

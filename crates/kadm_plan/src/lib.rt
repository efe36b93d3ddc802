//! The judge of a command against rows with wrapped keys, and what is made of a command before.
#![tactic(auto)]

pub mod laws;
pub mod plans;
pub mod ready;

pub use command_plans::{Planned, View};
pub use plans::plan;
pub use ready::{Ready, prepare};

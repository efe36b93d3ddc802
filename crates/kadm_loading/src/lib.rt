//! A dump read from an input and loaded into a primary that is open.
#![tactic(auto)]

mod answering;
mod loads;
mod reading;

pub use loads::load_input;

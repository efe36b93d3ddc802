//! What the judge of a command says of a state, as what a primary performs of its place.
#![tactic(auto)]

pub mod laws;

pub use kadm_plan::{Planned, Ready, View, plan, prepare};

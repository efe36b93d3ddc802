//! What a command does to a database with its keys in the plain, and what it answers.
#![tactic(auto)]

mod access;
mod asked;
mod entries;
pub mod heads;
pub mod laws;
mod masters;
mod named;
mod reading;
mod records;
pub mod refusals;
mod steps;

pub use steps::step_plain;

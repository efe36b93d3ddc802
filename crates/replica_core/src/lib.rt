//! A replica: a database that follows another by replies to its polls and by dumps, each call on it an event.
#![tactic(auto)]

mod judging;
pub mod laws;
pub mod loading;
pub mod opening;
pub mod replica;
pub mod stops;
pub mod taking;
mod updating;

pub use replica::Replica;
pub use stops::{ReplicaStop, Taken4};

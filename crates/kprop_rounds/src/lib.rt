//! Rounds of a replica over a link: a poll at its own point, what came of it, and where it is asked for, a dump.
#![tactic(auto)]

pub mod dumps;
mod hearing;
pub mod rounds;
pub mod words;

pub use dumps::{install, read_dump};
pub use rounds::{pull, round, take};
pub use words::{RoundHalt, RoundWord};

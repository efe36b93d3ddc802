//! The log of a database as lines.
#![tactic(auto)]

mod entries;
pub mod ulogs;

pub use ulogs::print_ulog;

//! The master keys by which an opening or a load reads rows: those that the stash opens.
#![tactic(auto)]

mod finding;
mod opening;
mod stash_keys;

pub use opening::{find_masters, stash_masters};

//! How long the log's entry of a change is, and whether the change begins the log anew, told of a state with its keys
//! in the plain.
#![tactic(auto)]

pub mod laws;
mod lengths;
#[cfg(test)]
mod tests;

pub use lengths::{block_in, entry_len_in};

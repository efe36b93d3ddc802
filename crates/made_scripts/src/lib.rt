//! A script of commands, made of a seed and run over a database of its own in memory.
#![tactic(auto)]

mod asking;
pub mod counts;
pub mod laws;
pub mod lines;
mod making;
pub mod plays;
pub mod runs;
pub mod summaries;
#[cfg(test)]
mod tests;
pub mod words;

pub use runs::run_script;
pub use words::{Script, read_script};

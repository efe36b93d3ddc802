//! The lines of an input, read from any source, in pieces of any size. A line that is longer than
//! 65536 bytes is skipped whole, so the memory in use does not grow with the input.
#![tactic(auto)]

pub mod laws;
pub mod readers;
mod windows;

pub use readers::{IntakeFault, LineReader, NextLine};

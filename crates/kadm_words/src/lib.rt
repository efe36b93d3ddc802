//! The words of a line: plain ones and quoted ones, with spaces and tabs between them.
#![tactic(auto)]

pub mod laws;
pub mod words;

pub use words::split_words;

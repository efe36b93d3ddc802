//! One line of kadmin's input as a command: its words, options and their values.
#![tactic(auto)]

pub mod commands;
pub mod keys;
pub mod laws;
pub mod lines;
pub mod options;
pub mod policies;
pub mod princs;
pub mod readings;
pub mod values;
pub mod verbs;

pub use lines::{parse_line, parse_words, read_line};
pub use readings::Reading;

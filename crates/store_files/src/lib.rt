//! What the files of a database over a log and cells stand for, what one change makes of them at each
//! moment, and what is kept of them in memory.
#![tactic(auto)]

pub mod laws;

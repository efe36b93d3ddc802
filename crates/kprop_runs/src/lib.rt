//! A replica's run: a stated number of rounds over a link, each told in a line.
#![tactic(auto)]

#[cfg(test)]
mod disk_tests;
pub mod halts;
pub mod laws;
pub mod lines;
pub mod rounds;
pub mod runs;
#[cfg(test)]
mod tests;
pub mod words;

pub use halts::RunHalt;
pub use runs::run_replica;
pub use words::{Asked, read_asked};

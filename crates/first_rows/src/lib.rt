//! What a creation puts into a new database: the master key, and the first rows.
#![tactic(auto)]

pub mod create_spec;
mod first_keys;
pub mod laws;
mod records;
mod rows;

pub use create_spec::CreateSpec;
pub use rows::first_rows;

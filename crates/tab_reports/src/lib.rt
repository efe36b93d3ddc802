//! Reports of a database as tables: principals, keys, policies and versions of the master key. A table is a
//! header and a line for each item, with a tab between fields.
#![tactic(auto)]

pub mod counting;
pub mod keys;
pub mod laws;
pub mod masters;
pub mod policies;
pub mod principals;
pub mod reports;

pub use reports::{ReportKind, report};

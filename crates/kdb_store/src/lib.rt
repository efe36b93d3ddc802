//! A database on a disk that may crash at any moment, over an update log and cells: each change is opened
//! in the log, then written into its unit, and a crash leaves it done or not done.
#![tactic(auto)]

mod changing;
pub mod committing;
pub mod database;
mod disk_changes;
mod entry_writes;
pub mod opening;
pub mod recovering;
pub mod replacing;
mod reset_changes;
pub mod resetting;
pub mod resetting_with;
pub mod stashing;
mod writing;

pub use database::{Database, entry_length};

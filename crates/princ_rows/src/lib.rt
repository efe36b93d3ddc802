//! The rows of a principal database: principals and policies in the byte order of their names, changes that can be
//! taken back, the entries of the log that carry them, and what a replica that polls the log is answered.
#![tactic(auto)]

pub mod begun;
pub mod boxes;
mod copies;
pub mod entries;
pub mod entry_laws;
pub mod laws;
pub mod replies;
pub mod rows;
pub mod sorted;

pub use begun::Begun;
pub use boxes::{Boxed, push_boxed};
pub use copies::{copy_entry, copy_op};
pub use entries::{Entries, Entry, Logged, Op};
pub use replies::{PollReply, ReplyCode};
pub use rows::Rows;
pub use sorted::Keyed;

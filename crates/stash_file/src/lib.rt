//! The stash: a file in MIT's keytab format that holds the master keys, by which a database is opened
//! without a password.
#![tactic(auto)]

pub mod faults;
pub mod keys;
pub mod keytabs;
pub mod laws;
pub mod pieces;
pub mod reading;
pub mod writing;

pub use faults::StashFault;
pub use keys::{StashKey, StashList};
pub use keytabs::read_entries;
pub use pieces::{Entry, has_key, is_end, read_entry, read_piece};
pub use reading::read_stash;
pub use writing::write_stash;

//! Keytabs of any principals, in MIT's format (version 0502): read, changed and written.
#![tactic(auto)]

pub mod adding;
pub mod faults;
pub mod lists;
pub mod reading;
pub mod removing;
pub mod writing;

pub use adding::add_entries;
pub use faults::KeytabFault;
pub use lists::KeytabList;
pub use reading::read_keytab;
pub use removing::{Which, has_entry, remove_entries};
pub use stash_file::Entry as KeytabEntry;
pub use writing::write_keytab;

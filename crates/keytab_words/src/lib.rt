//! What the words of a run that writes a keytab ask for.
#![tactic(auto)]

pub mod names;
pub mod words;

pub use names::read_own_name;
pub use words::{KeytabWords, read_ktadd, read_ktremove};

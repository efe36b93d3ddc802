//! The keys of a principal's record: wrapped keys with the salts of their passwords, and the keys of earlier
//! passwords. Each has one spelling, and its length and its copy stand beside it.
#![tactic(auto)]

mod copies;
pub mod keys;
pub mod laws;
pub mod measures;
pub mod remembered;

pub use copies::copy_salt;
pub use keys::{KeyFormat, KeyItem, Keys};
pub use remembered::{OldKey, OldKeys, OldSet, OldSets};

//! The keys of rows: which rows show which state, keys wrapped with the random bytes of a command, opened, remembered
//! and kept, and rows that an opening or a load may take.
#![tactic(auto)]

mod kept_keys;
pub mod laws;
mod lookups;
mod opening;
mod remembering;
mod ring;
mod sound;
mod wraps;

pub use kept_keys::{kept_from, newest_version, settled_keys};
pub use lookups::{has_policy_row, policy_row, record_named, records_under, records_with_policy};
pub use opening::{open_items, open_princ, open_sets};
pub use remembering::remembered_sets;
pub use ring::MasterRing;
pub use sound::{Unsound, check_rows};
pub use wraps::{behind_items, rekeyed_items, taken_len, wrapped_items};

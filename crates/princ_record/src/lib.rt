//! The records of a principal database: principals and policies as bytes. Each record has one spelling, and
//! bytes that are no spelling of a record are refused.
#![tactic(auto)]

mod copies;
pub mod facts;
pub mod faults;
pub mod laws;
mod measures;
pub mod policies;
pub mod princs;
pub mod row_limits;
pub mod rows;

pub use copies::copy;
pub use facts::ChainPart;
pub use faults::RowFault;
pub use measures::encoded_len;
pub use policies::{PolicyFormat, copy_policy, decode_policy, encode_policy, policy_len};
pub use princ_keys::{KeyItem, Keys, OldKey, OldKeys, OldSet, OldSets};
pub use princs::{Princ, PrincFormat, decode, encode};
pub use row_limits::{is_row, is_row_1};
pub use rows::{PolicyRowFormat, RowFormat};

//! The plain state of a principal database: keys stand as plain keys, and no wrapped byte is seen. What is found in
//! a state, how long its rows are, what changes a state, and which states are valid.
#![tactic(auto)]

pub mod changes;
mod copies;
mod heads;
pub mod laws;
mod lengths;
mod lists;
mod lookups;
pub mod princs;
pub mod states;
mod strings;

pub use changes::{PlainOp, apply};
pub use copies::{copy_princ, copy_state};
pub use heads::{plain_head, plain_of};
pub use lengths::{chain_len, row_len};
pub use lists::{PlainPrincs, PolicyList};
pub use lookups::{
    first_key, has_policy, history_key, history_name, is_history_name, is_master_name, master_name,
    master_of, policy_named, princ_named, users_of,
};
pub use princs::PlainPrinc;
pub use states::State;
pub use strings::{has_room_for, has_string, with_string, without_string};

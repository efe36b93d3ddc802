//! The judge of `modprinc` and `addprinc` against rows with wrapped keys.
#![tactic(auto)]

mod active;
mod adding;
mod limits;
mod modifying;
mod new_keys;
mod policies;
mod puts;

pub use adding::plan_add;
pub use modifying::plan_modify;

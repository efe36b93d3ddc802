//! The judge of changes of keys against rows with wrapped keys.
#![tactic(auto)]

mod causes;
mod changing;
mod opening;
mod rekeying;

pub use changing::plan_change_keys;

//! The commands of master keys, judged against rows with wrapped keys: `add_mkey`, `use_mkey`, `list_mkeys` and
//! `purge_mkeys`.
#![tactic(auto)]

mod activating;
mod adding;
mod counting;
mod entry;
mod listing;
mod planned;
mod plans;
mod purging;

pub use activating::plan_use;
pub use adding::plan_add;
pub use listing::list;
pub use planned::{MasterChange, MasterPlan, Told};
pub use plans::plan;
pub use purging::plan_purge;

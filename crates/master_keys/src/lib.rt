//! The master keys of a Kerberos database: keys wrapped under a master key, and the chain by which one
//! master key opens all of them.
#![tactic(auto)]

mod adding;
mod faults;
mod first;
mod judging;
pub mod laws;
mod opening;
mod purging;
mod rewrapping;
mod wrapping;

pub use adding::add;
pub use faults::{ChainFault, Unopened};
pub use first::new_chain;
pub use judging::holds_chain;
pub use opening::open_with;
pub use purging::purge;
pub use rewrapping::{open_keys, rewrap, rewrap_by, wrap_items};
pub use wrapping::{MasterKey, unwrap, wrap};

//! The versions of the master key that serve, and what becomes of a state where versions are added, made active and
//! purged.
#![tactic(auto)]

pub mod laws;
pub mod master_laws;
pub mod serving;

pub use serving::{
    Cause, cause_from, cause_of, dead_versions, protected_by, serves, serving_masters,
};

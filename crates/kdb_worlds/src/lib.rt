//! A primary, its replicas and the messages between them, whatever happens to each.
#![tactic(auto)]

pub mod laws;

//! What replies, dumps and openings make of a replica, and what it tells others.
#![tactic(auto)]

pub mod laws;

//! Laws of worlds, whatever happens in them.
#![tactic(auto)]

pub mod laws;

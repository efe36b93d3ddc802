//! A dump that a primary takes in the place of all that it has.
#![tactic(auto)]

mod judging;
pub mod laws;
mod loading;

pub use judging::judge_dump;
pub use loading::load;
pub use primary_core::Primary;

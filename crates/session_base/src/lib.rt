//! What every session shares: why it ends early, where it may stop, what it draws, and replies with their bytes.
#![tactic(auto)]

pub mod draws;
pub mod halts;
pub mod replies;

pub use draws::draw;
pub use halts::SessionHalt;
pub use replies::{Printed, print, say, write_any};

//! The rekeying of one principal beside commands: its record is taken under the lock, wrapped anew outside it, and
//! settled under it.
#![tactic(auto)]

pub mod laws;
pub mod rewrapping;
pub mod settling;
pub mod taking;
pub mod works;

pub use rewrapping::{rewrap_outside, rewrap_taken};
pub use settling::settle;
pub use taking::take;
pub use works::{Rewrapped, Settled, Taken};

//! A primary together with its disk: each call of the primary, over the disk that the value holds.
#![tactic(auto)]

pub mod answering;
pub mod changing;
pub mod ending;
pub mod opening;
pub mod performing;
pub mod primary;
pub mod rekeying;

pub use primary::DiskPrimary;

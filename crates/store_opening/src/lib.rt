//! A database over an update log and cells, made anew or opened on a disk that may crash at any moment.
#![tactic(auto)]

pub mod creating;
pub mod laws;
mod leaving;
pub mod looking;
pub mod parts;
mod putting;
mod reading;
pub mod recovering;
pub mod redoing;
pub mod unit_writes;

pub use creating::create_parts;
pub use parts::Parts;
pub use recovering::recover_parts;
pub use redoing::{is_placed, rows_after};
pub use unit_writes::{UnitWrite, write_unit};

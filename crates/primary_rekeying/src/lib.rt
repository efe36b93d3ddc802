//! The rekeying calls of a primary: one principal is taken to be wrapped anew outside, what comes back is settled, or
//! one is rekeyed at once. Each is an event of the primary's history.
#![tactic(auto)]

mod facts;
mod finding;
pub mod laws;
pub mod rekeying;
mod storing;
pub mod taking;

pub use rekeying::{rekey_now, rekey_settle};
pub use taking::{TakeAnswer, rekey_take};

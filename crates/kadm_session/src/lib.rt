//! The lines of an input answered over an open primary, one after another.
#![tactic(auto)]

pub mod clients;
pub mod commands;
mod dumping;
pub mod intake;
pub mod laws;
mod moments;
mod rekeying;
mod renewing;
pub mod session;
mod stashing;

pub use clients::local_client;
pub use commands::{Judged, carry_out, judge};
pub use intake::Asked;
pub use primary_core::Primary;
pub use session::{serve, serve_one};

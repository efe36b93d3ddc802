//! The messages of incremental propagation on a connection: frames, of which one or more are a message.
#![tactic(auto)]

pub mod decoder;
pub mod due;
pub mod faults;
pub mod formats;
pub mod laws;
pub mod messages;
mod progress;

pub use decoder::Decoder;
pub use due::Due;
pub use faults::FrameFault;
pub use messages::{Message, write_message};

//! Messages of incremental propagation over a link: sent, and received in pieces of any size.
#![tactic(auto)]

pub mod asking;
pub mod halts;
pub mod inbox;
mod pieces;
pub mod sending;

pub use asking::{ask_dump, poll_peer};
pub use halts::LinkHalt;
pub use inbox::{Arrival, Inbox};
pub use sending::send_message;

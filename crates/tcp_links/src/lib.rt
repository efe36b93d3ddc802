//! A link over TCP: each dial makes a connection to one address.
#![tactic(auto)]

pub mod links;
pub mod streams;

pub use links::TcpLink;

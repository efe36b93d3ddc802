//! A whole database as text, from which a replica or a restore is loaded: its realm, its point, and each
//! row in hexadecimal.
#![tactic(auto)]

pub mod dumps;
pub mod laws;
mod lines;
mod progress;
pub mod reader;
mod readings;
pub mod stops;
pub mod versions;
pub mod writer;

pub use dumps::Dump;
pub use reader::DumpReader;
pub use stops::DumpStop;
pub use versions::Version;
pub use writer::{write_dump, write_marked};

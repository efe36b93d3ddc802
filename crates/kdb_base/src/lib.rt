//! The words that every crate of Noseguava shares: moments and points, byte strings, keys and their types, the
//! lists of calls that are to fail, and the ways in which a run or a command ends.
#![tactic(auto)]

pub mod blobs;
pub mod extracts;
pub mod fails;
pub mod keys;
pub mod laws;
pub mod limits;
pub mod moments;
pub mod outcomes;
pub mod versions;

pub use blobs::Blob;
pub use extracts::{Extract, ExtractList};
pub use fails::Fails;
pub use keys::{Etype, PlainKey, Salt};
pub use moments::{Point, Time, order_points};
pub use outcomes::{Ended, Field, Halt, MemoryOut, Refusal, Status, Stop};
pub use versions::{Activation, Activations, AuxKey, AuxList, Master, Masters};

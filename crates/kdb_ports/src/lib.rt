//! The outside of a run, as traits: what is read, what is written, the clock and random bytes. Each
//! counts its faults, and a call fails only where that count rose. What an object holds is told
//! where it can be: an object in memory tells it, an adapter over a real thing does not.
#![tactic(auto)]

pub mod chacha;
pub mod clocks;
pub mod entropies;
pub mod links;
pub mod sinks;
pub mod sources;
pub mod writing;

pub use chacha::{ChaChaEntropy, SeededEntropy};
pub use clocks::{Clock, MemoryClock, SystemClock};
pub use entropies::{DrawFailed, Entropy, ZeroEntropy};
pub use links::{Link, LinkFailed, MemoryLink};
pub use sinks::{MemorySink, Sink, WriteFailed, WriterSink};
pub use sources::{MemorySource, ReadFailed, ReaderSource, Source};
pub use writing::write_whole;

//! The words in which the formats of Noseguava are read and written: numbers, counted texts, fixed
//! bytes, zeros and lists with a count. Each reading has a spelling, and the two agree both ways.
#![tactic(auto)]

pub mod counted;
pub mod etypes;
pub mod faults;
pub mod format;
pub mod lists;
pub mod moments;
pub mod placing;
pub mod reader;
pub mod writing;

pub use counted::Counted;
pub use faults::{FormatFault, Malformed};
pub use format::{Format, read_inside, read_next, read_padded, read_whole};
pub use reader::Reader;

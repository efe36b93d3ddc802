//! The values that words of kadmin spell: numbers, durations, times, flags and globs. A reader answers a value
//! exactly where the word spells it.
#![tactic(auto)]

pub mod bytes;
pub mod durations;
pub mod etypes;
pub mod flags;
pub mod globs;
pub mod numbers;
pub mod points;
pub mod times;

pub use durations::{Unit, read_duration};
pub use etypes::{EtypeWord, read_etype, read_etypes};
pub use flags::{Flag, FlagChange, flags_in, read_flag, with_flags};
pub use globs::{glob_matches, is_glob};
pub use numbers::{read_number, value_of_digits};
pub use points::push_point;
pub use times::{print_time, read_time};

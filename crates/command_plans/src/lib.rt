//! The judge of a command against rows with wrapped keys: a refusal, an answer, or one change of the rows.
#![tactic(auto)]

pub mod causes;
pub mod dropping;
pub mod given;
pub mod listing;
pub mod planned;
pub mod policies;
pub mod purging;
pub mod reading;
pub mod renaming;
pub mod shown_records;
pub mod strings;
pub mod targets;

pub use given::View;
pub use planned::Planned;

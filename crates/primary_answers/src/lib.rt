//! What a primary answers of its rows and its log with no change: the names that are to be rekeyed, the replies to
//! polls, and copies of all rows for dumps.
#![tactic(auto)]

pub mod copying;
pub mod denying;
pub mod listing;
pub mod polling;

pub use copying::copy_rows;
pub use denying::{denial, denies_pull, setting_denial};
pub use listing::list_names;
pub use polling::{bare_reply, reply_to};

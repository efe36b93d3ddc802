//! The program's one call: from the words, the input, the disk and the clock to the replies.
#![tactic(auto)]

mod accounting;
pub mod alone;
pub mod asking;
mod generating;
mod keytabs;
mod loading;
mod making;
mod renewing;
pub mod run;
mod statuses;
pub mod words;

pub use alone::{say_text, text_alone};
pub use run::run_local;

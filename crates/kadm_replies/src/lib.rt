//! The texts of replies: data lines that begin with `- `, and a last line that begins with `ok` or `err`.
#![tactic(auto)]

pub mod flags;
pub mod lists;
pub mod masters;
pub mod princs;
pub mod refusals;
pub mod replies;
pub mod texts;

pub use refusals::print_refusal;
pub use replies::print_reply;

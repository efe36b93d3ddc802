//! The primary: a database with its master keys, and each call on it as an event of one history.
#![tactic(auto)]

pub mod answering;
mod changing;
pub mod creating;
pub mod decided;
pub mod deciding;
pub mod dumping;
pub mod ending;
pub mod filling;
pub mod laws;
mod moments;
pub mod opening;
pub mod performing;
pub mod primary;
pub mod renewing;
pub mod stashing;

pub use decided::{Decided, DecidedChange};
pub use performed_plans::laws::changes_make_places;
pub use performed_plans::{Ready, prepare};
pub use primary::Primary;

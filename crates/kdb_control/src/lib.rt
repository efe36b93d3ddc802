//! The control file of a database: two slots, of which the newer open one says which files hold the
//! image, the log and the stash. By its gate a switch from one to the next is made whole or not at
//! all, whenever a crash comes.
#![tactic(auto)]

mod body;
pub mod choice;
pub mod erasing;
pub mod force;
mod front;
pub mod reading;
mod slots;
mod spare;
pub mod switching;

pub use choice::Control;
pub use erasing::erase;
pub use force::{Force, Slot};
pub use reading::{ControlStop, read};
pub use switching::switch;

//! Names of principals: the words that spell them, their one printed form, and the patterns that
//! match them.
#![tactic(auto)]

mod bytes;
mod faults;
pub mod laws;
mod limits;
pub mod names;
mod parts;
pub mod patterns;
pub mod printed;
pub mod printing;
mod reading;
pub mod realms;
mod whole;

pub use faults::NameFault;
pub use names::{Name, parse_name, parse_own_name};
pub use parts::{Kind, Part};
pub use patterns::{Hits, Pattern};
pub use printed::{is_master, is_printed};
pub use printing::print_name;
pub use realms::{Realm, is_realm};

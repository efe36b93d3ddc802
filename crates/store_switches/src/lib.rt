//! A database over an update log and cells put under another choice of files, on a disk that may crash at
//! any moment: a log begun anew, another stash, rows written anew, and the end of a database.
#![tactic(auto)]

pub mod controls;
pub mod ending;
pub mod renewing;
pub mod switching;

pub use controls::{reset_control, stash_control};
pub use ending::destroy_files;
pub use renewing::{renew_files, renewed_control};
pub use switching::{reset_files, restash_files};

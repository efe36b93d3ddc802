//! A disk of seven files that may crash at any moment, and the gate by which a body is written so
//! that a crash leaves it whole or not at all.
#![tactic(auto)]

mod contents;
pub mod disk;
pub mod folder;
pub mod gate;
pub mod lent;
pub mod memory;
mod opening;
pub mod reader;
mod record;
mod replay;
pub mod whole;

pub use disk::{Disk, DiskFailed};
pub use folder::Folder;
pub use gate::{CLOSED, OPEN, close_gate, fill_body, is_open, open_gate, shut_gate, write_synced};
pub use lent::Lent;
pub use memory::MemoryDisk;
pub use reader::FileReader;
pub use record::Pick;
pub use whole::{FILES, empty_file, replace_file, settle_all};

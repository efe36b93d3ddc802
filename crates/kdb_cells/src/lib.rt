//! A file of cells: a heading, and units of one row each, of which a change writes one.
#![tactic(auto)]

pub mod cells;
pub mod files;
mod gathering;
mod headings;
pub mod index;
pub mod laws;
mod scanning;
pub mod units;

pub use cells::{Cells, unit_size};
pub use files::{Scanned, scan};
pub use headings::push_heading;
pub use index::UnitIndex;
pub use units::{StoredRow, clear_unit, fill_unit, read_unit};

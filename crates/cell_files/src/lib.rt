//! Whole files of cells: written anew with rows in their order, and the rows of a scan put in order.
#![tactic(auto)]

mod building;
pub mod laws;
pub mod new_file;
mod pages;
mod sorting;
mod texts;

pub use new_file::NewFile;
pub use sorting::rows_from;

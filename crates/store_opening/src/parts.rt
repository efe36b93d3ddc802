use cell_files::NewFile;
use kdb_base::Blob;
use kdb_cells::Cells;
use kdb_control::Control;
use princ_name::Realm;
use princ_rows::Rows;
use update_log::{Log, NewLog};

/// What is kept in memory of a database, as it was made or read. It cannot be printed, since the bytes of
/// a stash open a database without a password.
#[derive(Drop)]
pub struct Parts {
    /// The choice of files in force.
    pub control: Control,
    /// The log of the last changes.
    pub log: Log,
    /// The index of the file of cells.
    pub cells: Cells,
    /// The rows in the order of their keys.
    pub rows: Rows,
    pub realm: Realm,
    /// The bytes that open the database without a password, where such are kept.
    pub stash: Option<Blob>,
}

/// What is to be written of a database that is made anew, and what is then kept in memory.
#[derive(Drop)]
pub(crate) struct Plan {
    pub(crate) control: Control,
    pub(crate) image: NewFile,
    pub(crate) log: NewLog,
    pub(crate) rows: Rows,
    pub(crate) realm: Realm,
    pub(crate) stash: Option<Blob>,
}

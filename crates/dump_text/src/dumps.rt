use kdb_base::Point;
use princ_name::Realm;
use princ_rows::Rows;

/// What a dump holds: a whole database.
#[derive(Debug, Drop)]
pub struct Dump {
    pub realm: Realm,
    /// The last change.
    pub point: Point,
    pub rows: Rows,
}

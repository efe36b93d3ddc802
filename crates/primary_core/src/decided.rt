//! What a command comes to, before anything is written.

use kadm_commands::Reply;
use kdb_base::Masters;
use princ_rows::Op;

/// A change that is to be made. It does not print itself, since it holds keys.
#[derive(Drop)]
pub struct DecidedChange {
    /// The change of the rows.
    pub op: Op,
    /// The master keys behind it; none where they stay.
    pub masters: Option<Masters>,
}

/// An answer, or a change that is to be made, with its answer. It does not print itself: what is answered may be keys.
#[derive(Drop)]
pub enum Decided {
    /// Nothing is changed, and this is answered.
    Answer(Reply),
    /// This change is to be made, and this is answered once it is: it tells the change's point.
    Change(DecidedChange, Reply),
}

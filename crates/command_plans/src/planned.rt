//! What commands come to.

use kadm_commands::Reply;
use princ_rows::Op;

/// What an accepted command comes to. It does not print itself: what `extract` answers are keys.
#[derive(Drop)]
pub enum Planned {
    /// It only reads, and this is its answer.
    Answer(Reply),
    /// It makes this change of the rows.
    Change(Op),
}

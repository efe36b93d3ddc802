//! What holds of every moment.

ghost use Rattle.kdb_model.specs.Laws.{IsMoment};

use kdb_base::Time;

// Tells a proof that a moment is one. It does nothing.
pub(crate) fn holds_moment(moment: Time)
    ensures { IsMoment moment }
{
    let _secs = moment.secs();
    let _usecs = moment.usecs();
}

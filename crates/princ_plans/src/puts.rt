//! Records that are put.

ghost use Rattle.std.specs.Prelude.{◌≡◌, Err, None, Some};
ghost use Rattle.command_plans.specs.Targets.{IsPut};
ghost use Rattle.kdb_base.specs.declared.outcomes.Refusal.{Refusal};
ghost use Rattle.princ_rows.specs.declared.entries.Op.TheVariants as op;
ghost use Rattle.princ_record.specs.Princs.{AreLives, IsPrinc, lives_of};

use command_plans::Planned;
use command_plans::targets::put;
use kdb_base::Refusal;
use princ_record::Princ;

/// The record as it is: its lives and expirations are in their range.
pub(crate) fn with_lives(made: Princ) -> Princ
    ensures same { result ≡ made }
    ensures lives { AreLives (lives_of result) }
{
    made
}

/// The change that puts this record, where there is no cause before and it is short enough.
pub(crate) fn put_unless(before: Option<Refusal>, made: Princ) -> Result<Planned, Refusal>
    requires { IsPrinc made }
    ensures refused { (why : Refusal) → before ≡ Some why → result ≡ Err why }
    ensures put { before ≡ None → IsPut op.PutPrinc made result }
{
    match before {
        Some(why) => Err(why),
        None => put(made),
    }
}

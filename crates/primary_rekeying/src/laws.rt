//! Laws of settling. They do no work.

ghost use Rattle.std.specs.Prelude.{◌≡◌};
ghost use Rattle.kdb_base.specs.Moment.{Moment};
ghost use Rattle.kdb_histories.specs.Asks.{at_clock};
ghost use Rattle.kdb_histories.specs.Moves.{IsLeft};
ghost use Rattle.kdb_histories.specs.Seen.{entry_point, is_due};
ghost use Rattle.kdb_model.specs.Laws.{IsMoment};
ghost use Rattle.kdb_model.specs.Rekeying.{Stored, Work, settle};
ghost use Rattle.kdb_plain.specs.declared.states.State.{State};
ghost use Rattle.primary_core.specs.Opened.{HasState, Opened, place_of};
ghost use Rattle.princ_rows.specs.declared.entries.Op.TheVariants.{PutPrinc};
ghost use Rattle.princ_name.specs.Names.{NameParts, printed};
ghost use Rattle.princ_record.specs.declared.princs.Princ.{Princ};
ghost use Rattle.princ_rows.specs.Rows.{AreRows};
ghost use Rattle.rekey_work.specs.Works.{IsWork};
ghost use Rattle.row_keys.specs.Lookups.{record_named};

use kdb_plain::laws::valid_later;
use master_keys::laws::blobs_hold_one_key;
use princ_record::laws::principals_have_their_own_spellings;
use row_keys::laws::records_have_their_lengths;

/// Where the model settles work against the record that stands by its name, what it stores is the record of the work,
/// and its effect on rows that show a valid state shows the model's next state, which is valid at the entry's time.
pub fn settled_work_shows_the_next_state()
    ensures { (o : Opened) (s after : State) (name : NameParts) (clock : Moment) (work : Work) (made : Princ)
        → HasState o s → AreRows o.kept.rows → IsMoment clock → IsWork work → printed name ≡ work.taken.princ.name
        → settle s name (at_clock clock (is_due (PutPrinc work.made) (place_of o)))
        (record_named (printed name) o.kept.rows.princs) work ≡ Stored after made
        → (made ≡ work.made) × IsLeft (place_of o).realm (entry_point clock (PutPrinc made) (place_of o))
        (PutPrinc made) (place_of o).rows after }
{
    valid_later();
    records_have_their_lengths();
    blobs_hold_one_key();
    principals_have_their_own_spellings();
}

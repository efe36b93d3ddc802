//! How long a principal's row may be.

ghost use Rattle.std.specs.Prelude.{◌≡◌, ◌↔◌, IsTrue};
ghost use Rattle.princ_record.specs.Princs.{IsPrinc};
ghost use Rattle.princ_record.specs.RowLimits.{is_row, is_row_1, IsRow, IsRow1};

use crate::measures::encoded_len;
use crate::princs::Princ;
use kdb_base::limits::{MAX_ROW_LEN, MAX_ROW_LEN_1};

/// Whether the record may stand in a unit, an entry or a dump: its row has at most 16000 bytes.
#[tactic(auto, unfolding(crate::specs::RowLimits::is_row))]
pub fn is_row(value: &Princ) -> bool
    requires { IsPrinc value.now }
    ensures test { result ≡ is_row value.now }
    ensures says { IsTrue result ↔ IsRow value.now }
{
    encoded_len(value) <= MAX_ROW_LEN
}

/// Whether the record may stand in files of format 1 and dumps of version 1: it has no string
/// attribute, and its row has at most 8000 bytes.
#[tactic(auto, unfolding(crate::specs::RowLimits::is_row_1))]
pub fn is_row_1(value: &Princ) -> bool
    requires { IsPrinc value.now }
    ensures test { result ≡ is_row_1 value.now }
    ensures says { IsTrue result ↔ IsRow1 value.now }
{
    value.strings.as_slice().len() == 0 && encoded_len(value) <= MAX_ROW_LEN_1
}

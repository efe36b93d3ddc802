//! Reports of a database.

ghost use Rattle.std.specs.Prelude.{◌≡◌, ◌++◌, IfOk, OnOk};
ghost use Rattle.princ_rows.specs.Rows.{AreRows};
ghost use Rattle.tab_reports.specs.Reports.{report_text};

use crate::keys::push_all_keys;
use crate::masters::push_masters;
use crate::policies::push_policies;
use crate::principals::push_princs;
use kdb_base::{Blob, MemoryOut, Time};
use princ_rows::Rows;
use std::alloc::Global;

/// What a report tells of.
#[derive(Clone, Copy, Debug, PartialEq, Eq)]
pub enum ReportKind {
    Principals,
    Keys,
    Policies,
    /// The versions of the master key.
    Masters,
}

fn push_report(
    alloc: Global,
    out: &mut Vec<u8>,
    kind: ReportKind,
    rows: &Rows,
    secs: u32,
) -> Result<(), MemoryOut>
    ensures { OnOk result (out.new.items ≡ out.old.items ++ report_text kind rows.now secs) }
{
    match kind {
        ReportKind::Principals => push_princs(alloc, out, rows.princs()),
        ReportKind::Keys => push_all_keys(alloc, out, rows.princs()),
        ReportKind::Policies => push_policies(alloc, out, rows),
        ReportKind::Masters => push_masters(alloc, out, rows.princs(), secs),
    }
}

/// The report of these rows at this moment: a header with the names of the columns, and a line for each
/// item, with a tab between fields and a line feed behind each line. The moment decides which version of
/// the master key is active and why a version serves.
///
/// # Errors
///
/// `MemoryOut` where memory is wanted and not given.
pub fn report(alloc: Global, kind: ReportKind, rows: &Rows, moment: Time) -> Result<Blob, MemoryOut>
    ensures { IfOk result (λ text. text ≡ report_text kind rows.now moment.secs) }
{
    let mut out = Vec::new(alloc);
    push_report(alloc, &mut out, kind, rows, moment.secs())?;
    Ok(Blob::from_vec(out))
}

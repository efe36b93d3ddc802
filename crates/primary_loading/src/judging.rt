//! What a primary asks of a dump beyond its grammar.

ghost use Rattle.std.specs.Prelude.{◌≡◌, ◌<◌, length, Err, IfOk, List, OnOk, option_map};
ghost use Rattle.kdb_base.specs.declared.outcomes.Halt.{Halt as Halting};
ghost use Rattle.kdb_base.specs.declared.outcomes.Refusal.{Refusal as Refuses};
ghost use Rattle.kdb_base.specs.declared.outcomes.Halt.TheVariants.{MemoryOut as IsMemoryOut};
ghost use Rattle.kdb_base.specs.declared.outcomes.Stop.TheVariants as stops;
ghost use Rattle.kdb_base.specs.declared.versions.Master.{Master};
ghost use Rattle.primary_loading.specs.Judging.{AreTaken, HasKey, IsDumpCause, IsForeignCause};
ghost use Rattle.primary_loading.specs.Judging.{IsNoStash, IsRowsCause, IsTaken, IsUnsound};
ghost use Rattle.primary_loading.specs.Lines.{end_place, princ_place};
ghost use Rattle.row_keys.specs.Sound.{AreSound, judged};
ghost use Rattle.stash_opening.specs.Answers.{Gives, Refuses as RefusesFor};

use dump_text::Dump;
use kdb_base::{Halt, Masters, Refusal, Stop};
use princ_rows::Rows;
use row_keys::{Unsound, check_rows};
use stash_file::{StashFault, read_stash};
use stash_opening::stash_masters;
use std::alloc::Global;

// The line of a dump that has its realm, and the line of its first row.
const REALM_LINE: u32 = 2;

const FIRST_ROW: usize = 4;

// Looks for a key in the stash that stands in this file.
fn find_key(alloc: Global, stash: Option<&[u8]>, file: u8) -> Result<(), Stop>
    ensures some { OnOk result (HasKey (option_map (λ s. s.now) stash.entry)) }
    ensures refused { (why : Refuses) → result ≡ Err (stops.Refused why)
        → IsNoStash (option_map (λ s. s.now) stash.entry) file why }
    ensures halted { (halt : Halting) → result ≡ Err (stops.Halt halt) → halt ≡ IsMemoryOut }
{
    let Some(text) = stash else {
        return Err(Stop::Refused(Refusal::StashMissing));
    };
    match read_stash(alloc, text) {
        Ok(keys) => {
            if keys.as_slice().is_empty() {
                return Err(Stop::Refused(Refusal::StashMissing));
            }
            Ok(())
        }
        Err(StashFault::BadStash { place }) => Err(Stop::Refused(Refusal::Damaged { file, place })),
        Err(StashFault::MemoryOut) => Err(Stop::Halt(Halt::MemoryOut)),
    }
}

// Why a dump of another realm is refused.
fn refuse_foreign(alloc: Global, stash: Option<&[u8]>, file: u8) -> Result<Masters, Stop>
    ensures never { IfOk result (λ masters. ⊥) }
    ensures refused { (why : Refuses) → result ≡ Err (stops.Refused why)
        → IsForeignCause (option_map (λ s. s.now) stash.entry) file why }
    ensures only_refused { (why : Refuses) → IsForeignCause (option_map (λ s. s.now) stash.entry) file why
        → RefusesFor result why }
    ensures halted { (halt : Halting) → result ≡ Err (stops.Halt halt) → halt ≡ IsMemoryOut }
{
    match find_key(alloc, stash, file) {
        Ok(()) => Err(Stop::Refused(Refusal::DumpBad { line: REALM_LINE })),
        Err(stop) => Err(stop),
    }
}

// The line of the principal at this place.
fn line_at(rows: &Rows, at: usize) -> u32
    requires { at < length rows.now.princs }
    ensures { result ≡ princ_place at }
{
    let _rows = rows.princs();
    (at + FIRST_ROW) as u32
}

// The line of the end.
fn last_line(rows: &Rows) -> u32
    ensures { result ≡ end_place rows.now }
{
    (rows.princs().len() + rows.policies().len() + FIRST_ROW) as u32
}

// Judges rows of this realm at these seconds, under these master keys.
fn check_lines(
    alloc: Global,
    rows: &Rows,
    masters: &Masters,
    realm: &[u8],
    secs: u32,
) -> Result<(), Stop>
    ensures sound { OnOk result (AreSound (judged masters.now realm.now secs) rows.now) }
    ensures refused { (why : Refuses) → result ≡ Err (stops.Refused why)
        → IsUnsound (judged masters.now realm.now secs) rows.now why }
    ensures halted { (halt : Halting) → result ≡ Err (stops.Halt halt) → halt ≡ IsMemoryOut }
{
    match check_rows(alloc, rows, masters, realm, secs) {
        Ok(()) => Ok(()),
        Err(Unsound::Row(at)) => {
            let line = line_at(rows, at);
            Err(Stop::Refused(Refusal::DumpBad { line }))
        }
        Err(Unsound::Missing) => {
            let line = last_line(rows);
            Err(Stop::Refused(Refusal::DumpBad { line }))
        }
        Err(Unsound::MemoryOut) => Err(Stop::Halt(Halt::MemoryOut)),
    }
}

// The master keys by which rows of this realm are taken at these seconds.
fn judge_rows(
    alloc: Global,
    rows: &Rows,
    realm: &[u8],
    stash: Option<&[u8]>,
    file: u8,
    secs: u32,
) -> Result<Masters, Stop>
    ensures taken { IfOk result (AreTaken (option_map (λ s. s.now) stash.entry) realm.now secs rows.now) }
    ensures complete { (masters : List Master)
        → AreTaken (option_map (λ s. s.now) stash.entry) realm.now secs rows.now masters → Gives result masters }
    ensures refused { (why : Refuses) → result ≡ Err (stops.Refused why)
        → IsRowsCause (option_map (λ s. s.now) stash.entry) file realm.now secs rows.now why }
    ensures only_refused { (why : Refuses)
        → IsRowsCause (option_map (λ s. s.now) stash.entry) file realm.now secs rows.now why → RefusesFor result why }
    ensures halted { (halt : Halting) → result ≡ Err (stops.Halt halt) → halt ≡ IsMemoryOut }
{
    let masters = match stash_masters(alloc, rows, realm, stash, file) {
        Ok(masters) => masters,
        Err(stop) => return Err(stop),
    };
    match check_lines(alloc, rows, &masters, realm, secs) {
        Ok(()) => Ok(masters),
        Err(stop) => Err(stop),
    }
}

/// The master keys by which a dump is taken for a database of this realm, whose stash stands in this file: the dump is
/// of the realm, the stash opens K/M's chain among its rows, and its rows are sound at these seconds.
///
/// # Errors
///
/// `Damaged` and `StashMissing` of the stash; `DumpBad` with the line of the realm where that is another one;
/// `UnknownMaster` and `StashWrong` of the stash and K/M; `DumpBad` with the line of the first record that is not
/// sound, or with that of the end where K/M or kadmin/history is missing; and `MemoryOut` where memory is wanted and
/// not given. They come in this order.
pub fn judge_dump(
    alloc: Global,
    dump: &Dump,
    realm: &[u8],
    stash: Option<&[u8]>,
    file: u8,
    secs: u32,
) -> Result<Masters, Stop>
    ensures taken { IfOk result (IsTaken (option_map (λ s. s.now) stash.entry) realm.now secs dump.now) }
    // A dump that may be taken is taken, unless memory runs out.
    ensures complete { (masters : List Master)
        → IsTaken (option_map (λ s. s.now) stash.entry) realm.now secs dump.now masters → Gives result masters }
    ensures refused { (why : Refuses) → result ≡ Err (stops.Refused why)
        → IsDumpCause (option_map (λ s. s.now) stash.entry) file realm.now secs dump.now why }
    // Where there is a cause it is told, unless memory runs out.
    ensures only_refused { (why : Refuses)
        → IsDumpCause (option_map (λ s. s.now) stash.entry) file realm.now secs dump.now why → RefusesFor result why }
    ensures halted { (halt : Halting) → result ≡ Err (stops.Halt halt) → halt ≡ IsMemoryOut }
{
    if dump.realm.as_slice() != realm {
        return refuse_foreign(alloc, stash, file);
    }
    judge_rows(alloc, &dump.rows, realm, stash, file, secs)
}

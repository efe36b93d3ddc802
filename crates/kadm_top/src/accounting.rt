//! What is told of a database with no change.

ghost use Rattle.std.specs.Prelude.{◌≡◌, List, ℕ, Option, Err, IfErr, IfOk, OnErr, OnOk, false};
ghost use Rattle.session_base.specs.Draws.{told_draws};
ghost use Rattle.session_base.specs.Halts.{Counts};
ghost use Rattle.kadm_top.specs.Accounts.{account_text, log_text, report_at, texts_of, whole_text};
ghost use Rattle.kadm_top.specs.Openings.{IsToldBy, Opening};
ghost use Rattle.kadm_top.specs.Run.{HasRun, told};
ghost use Rattle.kadm_top.specs.Statuses.{IsMakingHalt, IsSayHalt};
ghost use Rattle.kdb_disk.specs.Frames.{IsCall};
ghost use Rattle.kdb_ports.specs.Parts.{SaidPart};
ghost use Rattle.kdb_ports.specs.Told.{after_told};
ghost use Rattle.store_files.specs.Found.{recovers};
ghost use Rattle.store_files.specs.Kept.{place_kept};

use crate::making::refuse;
use crate::words::Account;
use dump_text::{DumpStop, write_dump};
use kdb_base::{Blob, MemoryOut, Stop, Time};
use kdb_disk::Disk;
use kdb_ports::{Clock, Sink, write_whole};
use kdb_store::Database;
use session_base::SessionHalt;
use std::alloc::Global;
use store_files::laws::what_is_kept_is_recovered;
use tab_reports::{ReportKind, report};
use ulog_text::print_ulog;

// Writes the whole database as text.
fn say_dump<K: Sink>(alloc: Global, database: &Database, sink: &mut K) -> Result<(), SessionHalt>
    ensures ok { OnOk result (K.taken sink.new ≡ after_told (K.taken sink.old) (whole_text (place_kept database.now))) }
    ensures err { OnErr result (SaidPart (whole_text (place_kept database.now)) (K.taken sink.old) (K.taken sink.new)) }
    ensures halt { IfErr result IsSayHalt }
    ensures faults { Counts (K.faults sink.old) (K.faults sink.new) (result ≡ Err SessionHalt.WriteFault) }
{
    let realm = database.realm().as_slice();
    match write_dump(alloc, realm, database.point(), database.rows(), sink) {
        Ok(()) => Ok(()),
        Err(DumpStop::WriteFault) => Err(SessionHalt::WriteFault),
        Err(_) => Err(SessionHalt::MemoryOut),
    }
}

// The entries that the log holds, as lines.
fn print_log(alloc: Global, database: &Database) -> Result<Blob, MemoryOut>
    ensures { IfOk result (λ text. text ≡ log_text (place_kept database.now)) }
{
    let log = database.log();
    log.holds_journal();
    print_ulog(alloc, log, database.log_size(), database.block())
}

/// Writes a text that was made. It takes no memory.
pub(crate) fn say_made<K: Sink>(sink: &mut K, text: &[u8]) -> Result<(), SessionHalt>
    ensures ok { OnOk result (K.taken sink.new ≡ after_told (K.taken sink.old) text.now) }
    ensures err { OnErr result (SaidPart text.now (K.taken sink.old) (K.taken sink.new)) }
    ensures memory { result ≡ Err SessionHalt.MemoryOut → sink.new ≡ sink.old }
    ensures halt { IfErr result IsSayHalt }
    ensures faults { Counts (K.faults sink.old) (K.faults sink.new) (result ≡ Err SessionHalt.WriteFault) }
{
    match write_whole(sink, text) {
        Ok(()) => Ok(()),
        Err(_) => Err(SessionHalt::WriteFault),
    }
}

// Writes the entries that the log holds. The text is made first.
fn say_log<K: Sink>(alloc: Global, database: &Database, sink: &mut K) -> Result<(), SessionHalt>
    ensures ok { OnOk result (K.taken sink.new ≡ after_told (K.taken sink.old) (log_text (place_kept database.now))) }
    ensures err { OnErr result (SaidPart (log_text (place_kept database.now)) (K.taken sink.old) (K.taken sink.new)) }
    ensures memory { result ≡ Err SessionHalt.MemoryOut → sink.new ≡ sink.old }
    ensures halt { IfErr result IsSayHalt }
    ensures faults { Counts (K.faults sink.old) (K.faults sink.new) (result ≡ Err SessionHalt.WriteFault) }
{
    match print_log(alloc, database) {
        Ok(text) => say_made(sink, text.as_slice()),
        Err(_) => Err(SessionHalt::MemoryOut),
    }
}

// Writes a report. The text is made first.
fn say_report<K: Sink>(
    alloc: Global,
    kind: ReportKind,
    database: &Database,
    moment: Time,
    sink: &mut K,
) -> Result<(), SessionHalt>
    ensures ok { OnOk result
        (K.taken sink.new ≡ after_told (K.taken sink.old) (report_at kind moment.secs (place_kept database.now))) }
    ensures err { OnErr result
        (SaidPart (report_at kind moment.secs (place_kept database.now)) (K.taken sink.old) (K.taken sink.new)) }
    ensures memory { result ≡ Err SessionHalt.MemoryOut → sink.new ≡ sink.old }
    ensures halt { IfErr result IsSayHalt }
    ensures faults { Counts (K.faults sink.old) (K.faults sink.new) (result ≡ Err SessionHalt.WriteFault) }
{
    match report(alloc, kind, database.rows(), moment) {
        Ok(text) => say_made(sink, text.as_slice()),
        Err(_) => Err(SessionHalt::MemoryOut),
    }
}

// Writes what is told of the database at this moment.
fn say_account<K: Sink>(
    alloc: Global,
    account: Account,
    database: &Database,
    moment: Time,
    sink: &mut K,
) -> Result<(), SessionHalt>
    ensures ok { OnOk result (K.taken sink.new
        ≡ after_told (K.taken sink.old) (account_text account moment.secs (place_kept database.now))) }
    ensures err { OnErr result
        (SaidPart (account_text account moment.secs (place_kept database.now)) (K.taken sink.old) (K.taken sink.new)) }
    ensures halt { IfErr result IsSayHalt }
    ensures faults { Counts (K.faults sink.old) (K.faults sink.new) (result ≡ Err SessionHalt.WriteFault) }
{
    match account {
        Account::Dump => say_dump(alloc, database, sink),
        Account::Log => say_log(alloc, database, sink),
        Account::Report(kind) => say_report(alloc, kind, database, moment, sink),
    }
}

/// Opens the files alone, and tells this of what they stand for. The clock is read once, as at each opening, and a
/// report is one at that moment.
pub(crate) fn tell<K: Sink, D: Disk, C: Clock>(
    alloc: Global,
    account: Account,
    sink: &mut K,
    disk: &mut D,
    clock: &mut C,
) -> Result<bool, SessionHalt>
    ensures run { D.tells → (left : Option (List ℕ)) (stream : Option (ℕ → ℕ)) (o : Opening)
        → IsToldBy (texts_of account (told_draws (C.moments clock.old) stream)) (recovers (D.view disk.old).seen) o
        → HasRun o (D.view disk.old) (D.view disk.new)
        (told (K.taken sink.old) left (told_draws (C.moments clock.old) stream))
        (told (K.taken sink.new) left (told_draws (C.moments clock.new) stream)) result }
    ensures halt { IfErr result IsMakingHalt }
    ensures writes { Counts (K.faults sink.old) (K.faults sink.new) (result ≡ Err SessionHalt.WriteFault) }
    ensures call { IsCall D.Disk disk.old disk.new (result ≡ Err SessionHalt.DiskFault) }
{
    let moment = clock.now();
    match Database::recover(alloc, disk) {
        Ok(database) => {
            what_is_kept_is_recovered(disk);
            match say_account(alloc, account, &database, moment, sink) {
                Ok(()) => Ok(false),
                Err(halt) => Err(halt),
            }
        }
        Err(Stop::Refused(refusal)) => match refuse(alloc, sink, refusal) {
            Ok(()) => Ok(true),
            Err(halt) => Err(halt),
        },
        Err(Stop::Halt(halt)) => Err(SessionHalt::from(halt)),
    }
}

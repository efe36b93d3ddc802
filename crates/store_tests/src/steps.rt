//! What is done to a database on a disk in memory, and to its files.
ghost use Rattle.std.specs.Prelude.{◌≡◌, ◌≤◌, ◌<◌, ◌-◌, [], true, false, Some, IfOk};
ghost use Rattle.std.specs.List.{All};
ghost use Rattle.kdb_base.specs.Moments.{micros};
ghost use Rattle.princ_rows.specs.Entries.{IsOp, entry_len};
ghost use Rattle.kdb_cells.specs.Cells.{IsRowOf};
ghost use Rattle.kdb_cells.specs.CellFiles.{is_format};
ghost use Rattle.kdb_places.specs.Applying.{may_apply};
ghost use Rattle.kdb_places.specs.Places.{point_of};
ghost use Rattle.store_files.specs.Kept.{IsOnDisk, place_kept};

use crate::places::let_go_of_place;
use crate::records::{Change, HISTORY, KM, KRBTGT, Record, let_go_of_op, op_of, padded, princ};
use kdb_base::{Fails, Halt, Point, Refusal, Stop, Time};
use kdb_disk::{Disk, MemoryDisk, Pick};
use kdb_places::laws::what_may_be_applied;
use kdb_places::may_apply;
use kdb_store::{Database, entry_length};
use princ_name::{Realm, is_realm};
use princ_rows::{Op, Rows};
use std::alloc::Global;
use std::test::Fail;
use store_switches::destroy_files;

const REALM: &[u8] = b"EXAMPLE.ORG";

pub(crate) const STASH: &[u8] = b"first stash";

/// In another order than that of their names.
static FIRST_RECORDS: [Record; 3] = [KRBTGT, KM, HISTORY];

/// Seconds since 1970, and microseconds.
pub(crate) type At = (u32, u32);

pub(crate) const T0: At = (1_700_000_000, 0);

pub(crate) const T1: At = (1_700_000_000, 1);

pub(crate) const T2: At = (1_700_000_000, 2);

/// What is done to a database or to its files.
#[derive(Clone, Copy)]
pub(crate) enum Step {
    /// A database of format 2 with the first three records and the first stash, and a log of so many entries.
    Create(At, u32),
    /// A database of format 1 without rows, whose log begins at the serial 2.
    CreateFirst(At),
    Open,
    /// One change at this time.
    Commit(At, Change),
    /// The log begun anew, for so many entries in blocks of so many bytes.
    Reset(At, u32, u32),
    /// The log begun anew in blocks of so many bytes, and a change behind it.
    ResetAndCommit(At, u32, Change),
    /// The files written anew in format 2, with a log of so many entries.
    Migrate(At, u32),
    /// The record in the place of all rows.
    Replace(At, Record),
    PutStash(&'static [u8]),
    Destroy,
    /// Bytes at a place of a file.
    Write(u8, u64, &'static [u8]),
    /// Bytes at a place of a file, a row, and zeros up to so many bytes.
    WriteRow(u8, u64, &'static [u8], Record, usize),
    /// So many bytes left of a file.
    Cut(u8, u64),
}

/// Why it was refused, if it was.
pub(crate) type Answer = Result<Option<Refusal>, Fail>;

/// The point of this serial and time.
pub(crate) fn point(sno: u32, at: At) -> Point
    ensures { result.sno ≡ sno }
{
    let time = Time::new(at.0, at.1 % 1_000_000);
    Point { sno, time }
}

/// What an opening that was stopped answers.
pub(crate) fn answer_of(stop: Stop) -> Answer {
    match stop {
        Stop::Refused(refusal) => Ok(Some(refusal)),
        Stop::Halt(halt) => Err(Fail::from(halt)),
    }
}

fn answer_to(done: Result<(), Halt>) -> Answer {
    match done {
        Ok(()) => Ok(None),
        Err(halt) => Err(Fail::from(halt)),
    }
}

// ---- rows

fn no_rows(alloc: Global) -> Result<Rows, Fail>
    ensures { IfOk result (λ rows. rows.princs ≡ []) }
{
    match Rows::from_vecs(Vec::new(alloc), Vec::new(alloc)) {
        Some(rows) => Ok(rows),
        None => Err(Fail::from("no rows")),
    }
}

fn put_row(alloc: Global, rows: &mut Rows, record: &Record) -> Result<(), Fail> {
    what_may_be_applied();
    let op = Op::PutPrinc(princ(alloc, record)?);
    if !may_apply(rows, &op) {
        let_go_of_op(op);
        return Err(Fail::from("a row that may be put"));
    }
    rows.apply(op)?;
    Ok(())
}

// The rows of these records, which are put in their order.
fn rows_of(alloc: Global, records: &[Record]) -> Result<Rows, Fail> {
    let mut rows = no_rows(alloc)?;
    for record in records {
        put_row(alloc, &mut rows, record)?;
    }
    Ok(rows)
}

// Tells a proof that rows may stand in files of format 2, and does nothing.
fn holds_rows(rows: &Rows)
    ensures { All (IsRowOf 2) rows.now.princs }
{
    let _ = rows.princs();
}

// ---- a creation

fn make(
    alloc: Global,
    disk: &mut MemoryDisk,
    format: u16,
    rows: Rows,
    base: Point,
    size: u32,
    stash: Option<&[u8]>,
) -> Answer
    requires format { is_format format ≡ true }
    requires rows { All (IsRowOf format) rows.princs }
{
    if !is_realm(REALM) || size < 2 || size > 10000 {
        return Err(Fail::from("a realm and a size"));
    }
    match Database::create(alloc, disk, format, REALM, rows, base, size, 2048, stash).err() {
        None => Ok(None),
        Some(stop) => answer_of(stop),
    }
}

fn create(alloc: Global, disk: &mut MemoryDisk, at: At, size: u32) -> Answer {
    let rows = rows_of(alloc, &FIRST_RECORDS)?;
    holds_rows(&rows);
    make(alloc, disk, 2, rows, point(1, at), size, Some(STASH))
}

fn create_first(alloc: Global, disk: &mut MemoryDisk, at: At) -> Answer {
    let rows = no_rows(alloc)?;
    make(alloc, disk, 1, rows, point(2, at), 2, None)
}

// ---- changes

// Whether the one time is before the other.
fn is_before(one: &Time, other: &Time) -> bool
    ensures { result ≡ false → micros other.now ≤ micros one.now }
{
    let (secs, usecs) = (one.secs(), one.usecs());
    let (other_secs, other_usecs) = (other.secs(), other.usecs());
    secs < other_secs || (secs == other_secs && usecs < other_usecs)
}

// Whether the rows and their format take the change.
fn may_take(database: &Database, op: &Op) -> bool
    ensures applies { result ≡ true → may_apply op.now database.now.rows ≡ true }
    ensures format { result ≡ true → (place_kept database.now).format ≡ 2 }
{
    database.format() == 2 && may_apply(database.rows(), op)
}

// Whether a change may come next at this time.
fn may_come(database: &Database, time: &Time) -> bool
    ensures serial { result ≡ true → (point_of (place_kept database.now)).sno < 4294967295 }
    ensures time { result ≡ true → micros (point_of (place_kept database.now)).time ≤ micros time.now }
{
    let last = database.point();
    last.sno < u32::MAX && !is_before(time, &last.time)
}

fn commit(
    alloc: Global,
    disk: &mut MemoryDisk,
    database: &mut Database,
    at: At,
    change: &Change,
) -> Answer
    requires on { IsOnDisk database.old (⟦<MemoryDisk as Disk>⟧.view disk.old) }
    requires whole { database.old.broken ≡ false }
{
    let op = op_of(alloc, change)?;
    let time = point(1, at).time;
    if !may_take(database, &op) || !may_come(database, &time) || !database.fits(&op) {
        let_go_of_op(op);
        return Err(Fail::from("a change that may be made"));
    }
    match database.commit(alloc, disk, op, time) {
        Ok(_) => Ok(None),
        Err(halt) => Err(Fail::from(halt)),
    }
}

// ---- other files

fn is_log(size: u32, block: u32) -> bool
    ensures size { result ≡ true → (2 ≤ size) × (size ≤ 10000) }
    ensures block { result ≡ true → (2048 ≤ block) × (block ≤ 16384) }
{
    2 <= size && size <= 10000 && 2048 <= block && block <= 16384
}

fn reset(
    alloc: Global,
    disk: &mut MemoryDisk,
    database: &mut Database,
    at: At,
    size: u32,
    block: u32,
) -> Answer
    requires on { IsOnDisk database.old (⟦<MemoryDisk as Disk>⟧.view disk.old) }
    requires whole { database.old.broken ≡ false }
{
    if database.format() != 2 || !is_log(size, block) {
        return Err(Fail::from("a log that may be begun"));
    }
    answer_to(database.reset(alloc, disk, point(1, at), size, block))
}

fn reset_and_commit(
    alloc: Global,
    disk: &mut MemoryDisk,
    database: &mut Database,
    at: At,
    block: u32,
    change: &Change,
) -> Answer
    requires on { IsOnDisk database.old (⟦<MemoryDisk as Disk>⟧.view disk.old) }
    requires whole { database.old.broken ≡ false }
{
    let op = op_of(alloc, change)?;
    if !may_take(database, &op) || !is_log(2, block) || entry_length(&op) > block as usize - 1 {
        let_go_of_op(op);
        return Err(Fail::from("a change that may be made"));
    }
    let base = point(1, at);
    let time = base.time;
    match database.reset_and_commit(alloc, disk, base, block, op, time) {
        Ok(_) => Ok(None),
        Err(halt) => Err(Fail::from(halt)),
    }
}

fn migrate(
    alloc: Global,
    disk: &mut MemoryDisk,
    database: &mut Database,
    at: At,
    size: u32,
) -> Answer
    requires on { IsOnDisk database.old (⟦<MemoryDisk as Disk>⟧.view disk.old) }
    requires whole { database.old.broken ≡ false }
{
    if !is_log(size, 2048) {
        return Err(Fail::from("a size"));
    }
    answer_to(database.migrate(alloc, disk, point(1, at), size, 2048))
}

fn replace(
    alloc: Global,
    disk: &mut MemoryDisk,
    database: &mut Database,
    at: At,
    record: &Record,
) -> Answer
    requires on { IsOnDisk database.old (⟦<MemoryDisk as Disk>⟧.view disk.old) }
    requires whole { database.old.broken ≡ false }
{
    if !is_realm(REALM) {
        return Err(Fail::from("a realm"));
    }
    let mut rows = no_rows(alloc)?;
    put_row(alloc, &mut rows, record)?;
    let realm = Realm::from_bytes(alloc, REALM)?;
    answer_to(database.replace(alloc, disk, realm, rows, point(1, at)))
}

// ---- files

/// So many bytes at a place of a file.
pub(crate) fn bytes_at(disk: &MemoryDisk, file: u8, at: usize, count: usize) -> Option<&[u8]> {
    if file > 6 {
        return None;
    }
    match disk.bytes(file).get(at..) {
        Some(rest) => rest.get(..count),
        None => None,
    }
}

fn write(disk: &mut MemoryDisk, file: u8, at: u64, bytes: &[u8]) -> Answer {
    if file > 6 || at > 1_000_000 || bytes.len() > 16384 {
        return Err(Fail::from("a place and bytes"));
    }
    if at > disk.bytes(file).len() as u64 {
        return Err(Fail::from("a place in the file"));
    }
    match disk.write_at(file, at, bytes) {
        Ok(()) => Ok(None),
        Err(failed) => Err(Fail::from(failed)),
    }
}

fn write_row(
    alloc: Global,
    disk: &mut MemoryDisk,
    file: u8,
    at: u64,
    front: &[u8],
    record: &Record,
    length: usize,
) -> Answer {
    let bytes = padded(alloc, front, record, length)?;
    write(disk, file, at, &bytes)
}

fn cut(disk: &mut MemoryDisk, file: u8, length: u64) -> Answer {
    if file > 6 {
        return Err(Fail::from("a file"));
    }
    if length > disk.bytes(file).len() as u64 {
        return Err(Fail::from("a length in the file"));
    }
    match disk.cut(file, length) {
        Ok(()) => Ok(None),
        Err(failed) => Err(Fail::from(failed)),
    }
}

// ---- a step

// A step that wants the database open.
fn run_opened(alloc: Global, disk: &mut MemoryDisk, database: &mut Database, step: &Step) -> Answer
    requires on { IsOnDisk database.old (⟦<MemoryDisk as Disk>⟧.view disk.old) }
    requires whole { database.old.broken ≡ false }
{
    match step {
        Step::Commit(at, change) => commit(alloc, disk, database, *at, change),
        Step::Reset(at, size, block) => reset(alloc, disk, database, *at, *size, *block),
        Step::ResetAndCommit(at, block, change) => {
            reset_and_commit(alloc, disk, database, *at, *block, change)
        }
        Step::Migrate(at, size) => migrate(alloc, disk, database, *at, *size),
        Step::Replace(at, record) => replace(alloc, disk, database, *at, record),
        Step::PutStash(bytes) => answer_to(database.put_stash(alloc, disk, bytes)),
        _ => Ok(None),
    }
}

fn open_and_run(alloc: Global, disk: &mut MemoryDisk, step: &Step) -> Answer {
    match Database::recover(alloc, disk) {
        Ok(mut database) => {
            let answer = run_opened(alloc, disk, &mut database, step);
            let_go_of_place(Some(database));
            answer
        }
        Err(stop) => answer_of(stop),
    }
}

fn destroy(disk: &mut MemoryDisk) -> Answer {
    match destroy_files(disk) {
        Ok(()) => Ok(None),
        Err(stop) => answer_of(stop),
    }
}

/// Does the step. All that is done to a database but a creation and an end opens it first.
pub(crate) fn run(alloc: Global, disk: &mut MemoryDisk, step: &Step) -> Answer {
    match step {
        Step::Create(at, size) => create(alloc, disk, *at, *size),
        Step::CreateFirst(at) => create_first(alloc, disk, *at),
        Step::Destroy => destroy(disk),
        Step::Write(file, at, bytes) => write(disk, *file, *at, bytes),
        Step::WriteRow(file, at, front, record, length) => {
            write_row(alloc, disk, *file, *at, front, record, *length)
        }
        Step::Cut(file, length) => cut(disk, *file, *length),
        _ => open_and_run(alloc, disk, step),
    }
}

fn run_all(alloc: Global, disk: &mut MemoryDisk, steps: &[Step]) -> Result<(), Fail> {
    for step in steps {
        if run(alloc, disk, step)?.is_some() {
            return Err(Fail::from("a step that is not refused"));
        }
    }
    Ok(())
}

/// The disk with nothing done, and then these steps.
pub(crate) fn made(alloc: Global, steps: &[Step]) -> Result<MemoryDisk, Fail> {
    let mut disk = MemoryDisk::new(alloc, Fails::none(alloc))?;
    run_all(alloc, &mut disk, steps)?;
    Ok(disk)
}

/// The disk as it is inside this call, with no calls.
pub(crate) fn image(
    alloc: Global,
    disk: &MemoryDisk,
    call: u64,
    pick: Pick,
) -> Result<MemoryDisk, Fail> {
    if call >= disk.calls() {
        return Err(Fail::from("a call"));
    }
    Ok(disk.image_at(alloc, call, pick)?)
}

/// The disk as it reads, with no calls.
pub(crate) fn copied(alloc: Global, disk: &mut MemoryDisk) -> Result<MemoryDisk, Fail> {
    // so that there is a call
    disk.length(0)?;
    image(alloc, disk, disk.calls().saturating_sub(1), Pick::Written)
}

//! What is asked of the files of a disk, and of the database that they stand for.

use crate::places::{let_go_of_place, look_through};
use crate::records::{Change, Record, let_go_of_op, op_of, padded, row};
use crate::steps::{At, bytes_at, copied, point};
use kdb_disk::{FILES, MemoryDisk};
use kdb_store::{Database, entry_length};
use princ_rows::entries::{key_of, kind_of};
use std::alloc::Global;
use std::test::Fail;

static ZEROS: [u8; 16384] = [0; 16384];

#[derive(Clone, Copy)]
pub(crate) enum Look {
    /// These bytes stand at a place of a file.
    Reads(u8, usize, &'static [u8]),
    /// So many zeros do, of a unit's length at most.
    Zeros(u8, usize, usize),
    /// The bytes, a row, and zeros up to so many bytes do.
    Row(u8, usize, &'static [u8], Record, usize),
    /// A file has so many bytes.
    Length(u8, usize),
    /// The row of the record has so many bytes.
    RowLength(Record, usize),
    /// The entry of the change has so many bytes.
    EntryLength(Change, usize),
    /// An opening changes no file.
    StaysSame,
    /// The format, the log's size and the length of its blocks.
    Format(u16, u32, u32),
    /// The points of the first entry that the log holds and of the last one.
    Holds((u32, At), (u32, At)),
    /// The log has an entry of this serial, of this kind and key.
    Entry(u32, u8, &'static [u8]),
    NoEntry(u32),
    /// There is a principal of this name, or there is none.
    Has(&'static [u8]),
    Lacks(&'static [u8]),
    HasPolicy(&'static [u8]),
    LacksPolicy(&'static [u8]),
    /// There is this stash, or there is none.
    Stash(Option<&'static [u8]>),
    /// The entry of the change is too long for a block.
    TooLong(Change),
}

// ---- the database

fn has_format(database: &Database, format: u16, size: u32, block: u32) -> bool {
    database.format() == format && database.log_size() == size && database.block() == block
}

// Whether these are the points of the first entry that the log holds and of the last one.
fn holds(database: &Database, first: (u32, At), last: (u32, At)) -> bool {
    database.held() == (point(first.0, first.1), point(last.0, last.1))
}

fn has_entry(database: &Database, sno: u32, kind: u8, key: &[u8]) -> bool {
    match database.log().entry(sno) {
        Some(entry) => kind_of(&entry.op) == kind && key_of(&entry.op) == key,
        None => false,
    }
}

// Whether the entry of the change is too long for a block.
fn is_too_long(alloc: Global, database: &Database, change: &Change) -> Result<bool, Fail> {
    let op = op_of(alloc, change)?;
    let fits = database.fits(&op);
    let_go_of_op(op);
    Ok(!fits)
}

// What is asked of the database.
fn keeps(alloc: Global, database: &Database, look: &Look) -> Result<bool, Fail> {
    match look {
        Look::Format(format, size, block) => Ok(has_format(database, *format, *size, *block)),
        Look::Holds(first, last) => Ok(holds(database, *first, *last)),
        Look::Entry(sno, kind, key) => Ok(has_entry(database, *sno, *kind, key)),
        Look::NoEntry(sno) => Ok(database.log().entry(*sno).is_none()),
        Look::Has(name) => Ok(database.get(name).is_some()),
        Look::Lacks(name) => Ok(database.get(name).is_none()),
        Look::HasPolicy(name) => Ok(database.policy(name).is_some()),
        Look::LacksPolicy(name) => Ok(database.policy(name).is_none()),
        Look::Stash(stash) => Ok(database.stash() == *stash),
        Look::TooLong(change) => is_too_long(alloc, database, change),
        _ => Ok(false),
    }
}

// What is asked of the database, if there is one.
fn is_kept(alloc: Global, disk: &mut MemoryDisk, look: &Look) -> Result<bool, Fail> {
    match Database::recover(alloc, disk) {
        Ok(database) => {
            let kept = keeps(alloc, &database, look);
            let_go_of_place(Some(database));
            kept
        }
        Err(stop) => Err(Fail::from(stop)),
    }
}

// ---- the files

fn are_same_files(one: &MemoryDisk, other: &MemoryDisk) -> bool {
    for file in 0..FILES {
        if one.bytes(file) != other.bytes(file) {
            return false;
        }
    }
    true
}

// Whether the files are these, once the database was opened.
fn opens_as(alloc: Global, disk: &mut MemoryDisk, before: &MemoryDisk) -> Result<bool, Fail> {
    look_through(alloc, disk)?;
    Ok(are_same_files(disk, before))
}

fn stays_same(alloc: Global, disk: &mut MemoryDisk) -> Result<bool, Fail> {
    let before = copied(alloc, disk)?;
    opens_as(alloc, disk, &before)
}

fn has_row(
    alloc: Global,
    disk: &MemoryDisk,
    file: u8,
    at: usize,
    front: &[u8],
    record: &Record,
    length: usize,
) -> Result<bool, Fail> {
    match padded(alloc, front, record, length) {
        Ok(bytes) => Ok(bytes_at(disk, file, at, length) == Some(bytes.as_slice())),
        Err(fail) => Err(fail),
    }
}

fn has_row_length(alloc: Global, record: &Record, length: usize) -> Result<bool, Fail> {
    let bytes = row(alloc, record)?;
    Ok(bytes.len() == length)
}

fn has_entry_length(alloc: Global, change: &Change, length: usize) -> Result<bool, Fail> {
    let op = op_of(alloc, change)?;
    let told = entry_length(&op);
    let_go_of_op(op);
    Ok(told == length)
}

/// Whether it is so.
pub(crate) fn is_seen(alloc: Global, disk: &mut MemoryDisk, look: &Look) -> Result<bool, Fail> {
    match look {
        Look::Reads(file, at, bytes) => Ok(bytes_at(disk, *file, *at, bytes.len()) == Some(*bytes)),
        Look::Zeros(file, at, count) => {
            Ok(bytes_at(disk, *file, *at, *count) == ZEROS.get(..*count))
        }
        Look::Row(file, at, front, record, length) => {
            has_row(alloc, disk, *file, *at, front, record, *length)
        }
        Look::Length(file, length) => Ok(*file <= 6 && disk.bytes(*file).len() == *length),
        Look::RowLength(record, length) => has_row_length(alloc, record, *length),
        Look::EntryLength(change, length) => has_entry_length(alloc, change, *length),
        Look::StaysSame => stays_same(alloc, disk),
        _ => is_kept(alloc, disk, look),
    }
}

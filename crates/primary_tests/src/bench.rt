//! A disk in memory and the database on it, with what tests keep of earlier calls.

use crate::answers::{Became, became_of, is_done, is_printed, is_refused};
use crate::calls;
use crate::calls::{
    Asker, At, Opening, Primary, asker_of, begin_dump, load, recover, rewrap, settle, take,
};
use crate::turns::Turn;
use dump_text::Dump;
use kadm_commands::Reply;
use kdb_base::{Fails, Point};
use kdb_disk::MemoryDisk;
use primary_core::dumping::{DumpTicket, Snapshot};
use primary_rekeying::TakeAnswer;
use rekey_work::Rewrapped;
use std::alloc::Global;
use std::mem;
use std::test::Fail;

/// The second of the creation, 2023-11-14T22:13:20Z.
pub(crate) const T: At = (1_700_000_000, 0);

/// The administrator of the machine asks.
pub(crate) const LOCAL: Turn = Turn::Ask(None, "admin/local", T);

/// A list by which everybody may do all but extract keys.
pub(crate) const ANY: Option<&str> = Some("* *\n");

#[derive(Drop)]
pub(crate) struct Bench {
    /// The database that is open, where there is one.
    pub primary: Option<Primary>,
    /// Else the disk.
    pub disk: Option<MemoryDisk>,
    pub asker: Asker,
    /// Of the dumps that are under way, the oldest first.
    pub tickets: Vec<DumpTicket>,
    /// The dump that was begun last.
    pub dump: Option<Dump>,
    /// What was made of principals that were taken, the oldest first.
    pub works: Vec<Rewrapped>,
}

impl Bench {
    /// The administrator of the machine asks.
    pub(crate) fn over(alloc: Global, disk: MemoryDisk) -> Result<Bench, Fail> {
        let asker = asker_of(alloc, None, "admin/local", T)?;
        Ok(Bench {
            primary: None,
            disk: Some(disk),
            asker,
            tickets: Vec::new(alloc),
            dump: None,
            works: Vec::new(alloc),
        })
    }

    /// An empty disk, of which these calls fail.
    pub(crate) fn new(alloc: Global, fails: Fails) -> Result<Bench, Fail> {
        Bench::over(alloc, MemoryDisk::new(alloc, fails)?)
    }
}

/// Closes the database, where one is open, and hands the disk over.
pub(crate) fn shut(bench: &mut Bench) -> Result<MemoryDisk, Fail> {
    match bench.primary.take() {
        Some(primary) => Ok(primary.into_disk()),
        None => match bench.disk.take() {
            Some(disk) => Ok(disk),
            None => Err(Fail::from("a disk")),
        },
    }
}

// Puts the database on the bench, or the disk that was handed back, and compares the point or the refusal.
fn put(alloc: Global, bench: &mut Bench, opening: Opening, wanted: &str) -> Result<bool, Fail> {
    match opening {
        Ok(primary) => {
            let point = primary.store().point();
            drop(bench.primary.replace(primary));
            is_printed(alloc, Reply::Done(point), wanted)
        }
        Err((disk, stop)) => {
            bench.disk = Some(disk);
            is_refused(alloc, stop, wanted)
        }
    }
}

/// Makes a database with a log of so many entries, and with the master key of the password where
/// there is one.
pub(crate) fn create(
    alloc: Global,
    bench: &mut Bench,
    password: Option<&str>,
    size: u32,
    wanted: &str,
) -> Result<bool, Fail> {
    let disk = shut(bench)?;
    let opening = calls::create(alloc, disk, password, size, bench.asker.now)?;
    put(alloc, bench, opening, wanted)
}

/// Opens the database anew, with a log of so many entries where a size is given, and so many places for dumps.
pub(crate) fn open(
    alloc: Global,
    bench: &mut Bench,
    size: Option<u32>,
    places: u32,
    wanted: &str,
) -> Result<bool, Fail> {
    let disk = shut(bench)?;
    let opening = recover(alloc, disk, size, places, bench.asker.now)?;
    put(alloc, bench, opening, wanted)
}

/// Closes the database, and compares how many bytes this file has.
pub(crate) fn has_file(bench: &mut Bench, file: u8, length: usize) -> Result<bool, Fail> {
    if file > 6 {
        return Err(Fail::from("a file"));
    }
    let disk = shut(bench)?;
    let found = disk.bytes(file).len();
    bench.disk = Some(disk);
    Ok(found == length)
}

/// Whether the database is ended.
pub(crate) fn end(bench: &mut Bench) -> Result<bool, Fail> {
    let Some(primary) = bench.primary.take() else {
        return Err(Fail::from("a database"));
    };
    match primary.destroy() {
        Ok(disk) => {
            bench.disk = Some(disk);
            Ok(true)
        }
        Err((disk, stop)) => {
            drop(disk);
            Err(Fail::from(stop))
        }
    }
}

/// Lets a client ask.
pub(crate) fn ask(
    alloc: Global,
    bench: &mut Bench,
    list: Option<&str>,
    client: &str,
    at: At,
) -> Result<bool, Fail> {
    let asker = asker_of(alloc, list, client, at)?;
    drop(mem::replace(&mut bench.asker, asker));
    Ok(true)
}

// ---- dumps

// Keeps a dump and its ticket. It gives the point, and how many principals there are in it.
fn keep_dump(bench: &mut Bench, snapshot: Snapshot) -> Result<(Point, usize), Fail> {
    let count = snapshot.rows.princs().len();
    let dump = Dump {
        realm: snapshot.realm,
        point: snapshot.point,
        rows: snapshot.rows,
    };
    let point = dump.point;
    drop(bench.dump.replace(dump));
    bench.tickets.push(snapshot.ticket)?;
    Ok((point, count))
}

/// Begins a dump, and compares its point, or the refusal, and how many principals there are in it.
pub(crate) fn dump_begun(
    alloc: Global,
    bench: &mut Bench,
    wanted: &str,
    count: usize,
) -> Result<bool, Fail> {
    let Some(primary) = &mut bench.primary else {
        return Err(Fail::from("a database"));
    };
    match begin_dump(alloc, primary, &bench.asker) {
        Ok(snapshot) => {
            let (point, found) = keep_dump(bench, snapshot)?;
            Ok(found == count && is_printed(alloc, Reply::Done(point), wanted)?)
        }
        Err(stop) => is_refused(alloc, stop, wanted),
    }
}

/// Ends the oldest dump.
pub(crate) fn dump_ended(bench: &mut Bench) -> Result<bool, Fail> {
    let Some(primary) = &mut bench.primary else {
        return Err(Fail::from("a database"));
    };
    if bench.tickets.is_empty() {
        return Err(Fail::from("a dump under way"));
    }
    primary.end_dump(bench.tickets.remove(0));
    Ok(true)
}

/// Loads the dump that was begun last, without this principal.
pub(crate) fn loaded(
    alloc: Global,
    bench: &mut Bench,
    without: &[u8],
    wanted: &str,
) -> Result<bool, Fail> {
    let Some(primary) = &mut bench.primary else {
        return Err(Fail::from("a database"));
    };
    let Some(mut dump) = bench.dump.take() else {
        return Err(Fail::from("a dump"));
    };
    dump.rows.drop_princ(without);
    is_done(alloc, load(alloc, primary, dump, bench.asker.now), wanted)
}

// ---- principals that are taken

/// Takes a principal, wraps its keys anew and keeps the work.
pub(crate) fn work_kept(alloc: Global, bench: &mut Bench, name: &[u8]) -> Result<bool, Fail> {
    let Some(primary) = &bench.primary else {
        return Err(Fail::from("a database"));
    };
    match take(alloc, primary, name, bench.asker.now)? {
        TakeAnswer::Ready(taken) => {
            bench.works.push(rewrap(alloc, taken)?)?;
            Ok(true)
        }
        other => {
            drop(other);
            Ok(false)
        }
    }
}

/// Settles the oldest work, which is on the principal of this name.
pub(crate) fn work_settled(
    alloc: Global,
    bench: &mut Bench,
    name: &[u8],
    wanted: Became,
) -> Result<bool, Fail> {
    let Some(primary) = &mut bench.primary else {
        return Err(Fail::from("a database"));
    };
    if bench.works.is_empty() {
        return Err(Fail::from("work"));
    }
    let made = bench.works.remove(0);
    let answer = settle(alloc, primary, made, bench.asker.now);
    Ok(became_of(primary, name, answer)? == wanted)
}

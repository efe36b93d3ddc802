//! What is done to a primary, one after another, and what each is to come to.

use crate::answers::{
    Became, Place, are_added, are_rekeyed, has_keys, has_log, has_row, is_answered,
    is_answered_last, is_done, is_listed, is_log_told, is_long_answered, is_polled, is_stashed,
    rekeyed, taken,
};
use crate::bench::{
    Bench, ask, create, dump_begun, dump_ended, end, has_file, loaded, open, work_kept,
    work_settled,
};
use crate::calls::{Asker, At, Primary, reset_log};
use crate::formats::to_format1;
use crate::patches::{Patch, patch_stash};
use kdb_base::Fails;
use princ_rows::ReplyCode;
use std::alloc::Global;
use std::process::Abort;
use std::test::Fail;

/// What is done, and what it is to answer: texts are those of replies, without their last line feed.
#[derive(Clone, Copy)]
pub(crate) enum Turn {
    /// From here on this client asks, under this access list where there is one, at this time.
    Ask(Option<&'static str>, &'static str, At),
    /// A database is made, with a log of so many entries.
    Create(u32, &'static str),
    /// A database is made by the password of its master key, with a log of 1000 entries.
    CreateBy(&'static str, &'static str),
    /// It is opened anew, with a log of so many entries where a size is given, and so many places for dumps.
    Open(Option<u32>, u32, &'static str),
    /// The files of a creation become files of format 1, whose log begins at the serial 2.
    Format1,
    /// So many bytes of the stash of a creation are left, with others at these places.
    Stash(usize, Patch),
    /// It is ended.
    End,
    /// A line, and nothing where the disk fails by it.
    Line(&'static str, &'static str),
    /// A line so many times, and the last reply.
    Lines(u32, &'static str, &'static str),
    /// `setstr bob` with this key and 1024 letters.
    LongLine(&'static str, &'static str),
    /// So many principals without keys are added, and the last reply.
    Added(u32, &'static str),
    ResetLog(&'static str),
    WriteStash(&'static str),
    /// The names that a glob matches.
    Names(&'static str, &'static str),
    /// A poll from this place, the code of its reply, and the serials of its updates.
    Poll(Place, ReplyCode, &'static [u32]),
    /// A poll of a primary that is closed.
    PollClosed,
    /// A dump begins: its point, and how many principals there are in it.
    BeginDump(&'static str, usize),
    /// The oldest dump ends.
    EndDump,
    /// The dump that was begun last is loaded, without this principal.
    Load(&'static [u8], &'static str),
    /// The principal of this name is taken, and its keys are wrapped anew.
    Work(&'static [u8]),
    /// The principal of this name is taken for nothing.
    Take(&'static [u8], Became),
    /// The oldest work, on the principal of this name, comes back.
    Settle(&'static [u8], Became),
    /// The principal of this name is rekeyed at once.
    Rekey(&'static [u8], Became),
    /// All are.
    RekeyAll(&'static str),
    /// How many entries the log holds at most, the length of its blocks, and its first and last points.
    Log(u32, u32, Place, Place),
    /// The lines by which the log is told.
    LogTold(&'static str),
    /// How many bytes the record at this place has, in the order of names.
    Row(usize, usize),
    /// How long the wrapped keys of this principal are.
    Keys(&'static [u8], &'static [usize]),
    /// The format of the files.
    Format(u16),
    /// It is closed, and this file has so many bytes.
    File(u8, usize),
}

// What stands in the database.
fn stands(alloc: Global, primary: &Primary, turn: &Turn) -> Result<bool, Fail> {
    match turn {
        Turn::Log(size, block, first, last) => {
            Ok(has_log(primary, *size, *block, *first, *last))
        }
        Turn::LogTold(wanted) => is_log_told(alloc, primary, wanted),
        Turn::Row(at, length) => has_row(primary, *at, *length),
        Turn::Keys(name, lengths) => Ok(has_keys(primary, name, lengths)),
        Turn::Format(format) => Ok(primary.store().format() == *format),
        _ => Ok(false),
    }
}

// Calls that leave the database open.
fn come_to(alloc: Global, primary: &mut Primary, asker: &Asker, turn: &Turn) -> Result<bool, Fail> {
    match turn {
        Turn::Line(line, wanted) => is_answered(alloc, primary, asker, line.as_bytes(), wanted),
        Turn::Lines(count, line, wanted) => {
            is_answered_last(alloc, primary, asker, *count, line.as_bytes(), wanted)
        }
        Turn::LongLine(key, wanted) => is_long_answered(alloc, primary, asker, key, wanted),
        Turn::Added(count, wanted) => are_added(alloc, primary, asker, *count, wanted),
        Turn::ResetLog(wanted) => is_done(alloc, reset_log(alloc, primary, asker.now), wanted),
        Turn::WriteStash(wanted) => is_stashed(alloc, primary, asker, wanted),
        Turn::Names(glob, wanted) => is_listed(alloc, primary, asker, glob, wanted),
        Turn::Poll(place, code, serials) => {
            is_polled(alloc, primary, asker, *place, Some(*code), serials)
        }
        Turn::PollClosed => is_polled(alloc, primary, asker, (0, (0, 0)), None, &[]),
        Turn::Take(name, became) => Ok(taken(alloc, primary, asker, name)? == *became),
        Turn::Rekey(name, became) => Ok(rekeyed(alloc, primary, asker, name)? == *became),
        Turn::RekeyAll(wanted) => are_rekeyed(alloc, primary, asker, wanted),
        _ => stands(alloc, primary, turn),
    }
}

/// Whether the turn comes to what it says.
pub(crate) fn take_turn(alloc: Global, bench: &mut Bench, turn: &Turn) -> Result<bool, Fail> {
    match turn {
        Turn::Ask(list, client, at) => ask(alloc, bench, *list, client, *at),
        Turn::Create(size, wanted) => create(alloc, bench, None, *size, wanted),
        Turn::CreateBy(password, wanted) => create(alloc, bench, Some(*password), 1000, wanted),
        Turn::Open(size, places, wanted) => open(alloc, bench, *size, *places, wanted),
        Turn::Format1 => to_format1(alloc, bench),
        Turn::Stash(length, patch) => patch_stash(alloc, bench, *length, *patch),
        Turn::File(file, length) => has_file(bench, *file, *length),
        Turn::End => end(bench),
        Turn::BeginDump(wanted, count) => dump_begun(alloc, bench, wanted, *count),
        Turn::EndDump => dump_ended(bench),
        Turn::Load(without, wanted) => loaded(alloc, bench, without, wanted),
        Turn::Work(name) => work_kept(alloc, bench, name),
        Turn::Settle(name, became) => work_settled(alloc, bench, name, *became),
        _ => {
            let Some(primary) = &mut bench.primary else {
                return Err(Fail::from("a database"));
            };
            come_to(alloc, primary, &bench.asker, turn)
        }
    }
}

/// Takes the turns one after another.
pub(crate) fn play_on(
    rt: &impl Abort,
    alloc: Global,
    bench: &mut Bench,
    turns: &[Turn],
) -> Result<(), Fail> {
    let mut number = 0u32;
    for turn in turns {
        let taken = take_turn(alloc, bench, turn)?;
        assert!(rt; taken, "turn {number}");
        number = number.saturating_add(1);
    }
    Ok(())
}

/// Takes the turns one after another, over an empty disk.
pub(crate) fn play(rt: &impl Abort, alloc: Global, turns: &[Turn]) -> Result<(), Fail> {
    let mut bench = Bench::new(alloc, Fails::none(alloc))?;
    let played = play_on(rt, alloc, &mut bench, turns);
    drop(bench);
    played
}

//! Messages of a replica and of its primary as bytes: written, and read whole and byte by byte.

ghost use Rattle.std.specs.Prelude.{◌≡◌, IfOk, length};
ghost use Rattle.std.specs.List.{All};
ghost use Rattle.princ_rows.specs.Entries.{IsSent};
ghost use Rattle.iprop_wire.specs.Messages.{FitsFrames};

use crate::given::{BOB, SECS};
use crate::steps::{At, at};
use iprop_wire::{Decoder, Message, write_message};
use kdb_base::{Blob, Point, Time};
use princ_name::is_printed;
use princ_rows::{Entries, Entry, Op, PollReply, ReplyCode};
use std::alloc::Global;
use std::process::Abort;
use std::test::*;

/// A poll from serial 2.
const POLL: &[u8] = b"\x00\x00\x00\x0d\x01\x00\x00\x00\x02\x65\x53\xf1\x00\x00\x00\x00\x00";

/// Nothing came behind serial 4.
const NIL: &[u8] =
    b"\x00\x00\x00\x12\x11\x04\x00\x00\x00\x04\x65\x53\xf1\x00\x00\x00\x00\x00\x00\x00\x00\x00";

/// One update came behind serial 2: update 3 takes bob away.
const UPDATE: &[u8] =
    b"\x00\x00\x00\x12\x11\x00\x00\x00\x00\x02\x65\x53\xf1\x00\x00\x00\x00\x00\x00\x00\x00\x01\
\x00\x00\x00\x21\x14\x00\x00\x00\x03\x65\x53\xf1\x00\x00\x00\x00\x00\x02\x00\x0f\
\x62\x6f\x62\x40\x45\x58\x41\x4d\x50\x4c\x45\x2e\x4f\x52\x47\x00\x00";

// ---- written

fn point(sno: u32) -> Point {
    Point {
        sno,
        time: Time::new(SECS, 0),
    }
}

/// An update that takes bob away.
fn deletion(alloc: Global, sno: u32) -> Result<Entry, Fail>
    ensures { IfOk result IsSent }
{
    if !is_printed(BOB) {
        return Err(Fail::from("a printed name"));
    }
    let name = Blob::from_bytes(alloc, BOB)?;
    Ok(Entry {
        point: point(sno),
        op: Some(Op::DropPrinc(name)),
    })
}

/// One update alone.
fn only(alloc: Global, update: Entry) -> Result<Entries, Fail>
    requires { IsSent update }
    ensures sent { IfOk result (All IsSent) }
    ensures one { IfOk result (λ updates. length updates ≡ 1) }
{
    Ok(Entries::from_vec(vec![in alloc; update]?))
}

fn nothing_new(alloc: Global) -> Message
    ensures { FitsFrames result }
{
    let none = Entries::from_vec(Vec::new(alloc));
    Message::Reply(PollReply::new(ReplyCode::Nil, point(4), none))
}

fn one_update(alloc: Global) -> Result<Message, Fail>
    ensures { IfOk result FitsFrames }
{
    let updates = only(alloc, deletion(alloc, 3)?)?;
    let reply = PollReply::new(ReplyCode::UpdateOk, point(2), updates);
    Ok(Message::Reply(reply))
}

#[test]
fn a_poll_is_written(rt: HostRuntime) -> Result<(), Fail> {
    let text = write_message(rt.alloc(), &Message::Poll(point(2)))?;
    assert_eq!(rt; text.as_slice(), POLL);
    Ok(())
}

fn check_nil(rt: &impl Abort, alloc: Global) -> Result<(), Fail> {
    let message = nothing_new(alloc);
    let text = write_message(alloc, &message)?;
    assert_eq!(rt; text.as_slice(), NIL);
    Ok(())
}

fn check_update(rt: &impl Abort, alloc: Global) -> Result<(), Fail> {
    let message = one_update(alloc)?;
    let text = write_message(alloc, &message)?;
    assert_eq!(rt; text.as_slice(), UPDATE);
    Ok(())
}

#[test]
fn replies_are_written(rt: HostRuntime) -> Result<(), Fail> {
    check_nil(&rt, rt.alloc())?;
    check_update(&rt, rt.alloc())
}

// ---- read

/// What a message says.
#[derive(Clone, Copy)]
struct Case {
    text: &'static [u8],
    /// None of a poll.
    code: Option<ReplyCode>,
    asked: At,
    /// The points of the updates, and the names of the principals that they take away.
    deletions: &'static [(At, &'static [u8])],
}

const CASES: [Case; 3] = [
    Case {
        text: POLL,
        code: None,
        asked: (2, SECS, 0),
        deletions: &[],
    },
    Case {
        text: NIL,
        code: Some(ReplyCode::Nil),
        asked: (4, SECS, 0),
        deletions: &[],
    },
    Case {
        text: UPDATE,
        code: Some(ReplyCode::UpdateOk),
        asked: (2, SECS, 0),
        deletions: &[((3, SECS, 0), BOB)],
    },
];

/// Whether a message waits, which is then handed out.
fn waits(decoder: &mut Decoder) -> bool {
    let message = decoder.next();
    message.is_some()
}

/// Feeds a piece, before which no message waits, and of which all is taken.
fn feed_piece(decoder: &mut Decoder, piece: &[u8]) -> Result<(), Fail> {
    if waits(decoder) || decoder.feed(piece)? != piece.len() {
        return Err(Fail::from("bytes of one message"));
    }
    Ok(())
}

fn feed_pieces(decoder: &mut Decoder, text: &[u8], size: usize) -> Result<(), Fail> {
    for piece in text.chunks(size.max(1)) {
        feed_piece(decoder, piece)?;
    }
    Ok(())
}

/// The message of these bytes, which come in pieces of this size. It waits behind the last of
/// them, and not before.
fn read(alloc: Global, text: &[u8], size: usize) -> Result<Option<Message>, Fail> {
    let mut decoder = Decoder::new(alloc)?;
    feed_pieces(&mut decoder, text, size)?;
    Ok(decoder.next())
}

fn deletes(entry: &Entry, point: At, name: &[u8]) -> bool {
    let named = match &entry.op {
        Some(Op::DropPrinc(dropped)) => dropped.as_slice() == name,
        _ => false,
    };
    named && at(&entry.point) == point
}

fn tells(reply: &PollReply, case: &Case) -> bool {
    let updates = reply.updates();
    if updates.len() != case.deletions.len() {
        return false;
    }
    for (entry, (point, name)) in updates.iter().zip(case.deletions) {
        if !deletes(entry, *point, name) {
            return false;
        }
    }
    Some(reply.code()) == case.code && at(&reply.asked()) == case.asked
}

fn says(message: &Option<Message>, case: &Case) -> bool {
    match message {
        Some(Message::Poll(asked)) => case.code.is_none() && at(asked) == case.asked,
        Some(Message::Reply(reply)) => tells(reply, case),
        _ => false,
    }
}

/// Reads the message in pieces of this size.
fn check_read(rt: &impl Abort, alloc: Global, case: &Case, size: usize) -> Result<(), Fail> {
    let message = read(alloc, case.text, size)?;
    assert!(rt; says(&message, case));
    Ok(())
}

#[test]
fn messages_are_read_whole_and_by_bytes(rt: HostRuntime) -> Result<(), Fail> {
    for case in &CASES {
        check_read(&rt, rt.alloc(), case, case.text.len())?;
        check_read(&rt, rt.alloc(), case, 1)?;
    }
    Ok(())
}

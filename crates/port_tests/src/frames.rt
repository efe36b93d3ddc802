//! Messages of propagation as bytes that come in pieces, and bytes with which none begins.

use iprop_wire::{Decoder, FrameFault, Message, write_message};
use kdb_base::{Point, Time};
use std::alloc::Global;
use std::process::Abort;
use std::test::*;

/// A poll at serial 2.
const POLL: &[u8] = b"\x00\x00\x00\x0d\x01\x00\x00\x00\x02\x65\x53\xf1\x00\x00\x00\x00\x00";

/// There is nothing new behind serial 4.
const NIL: &[u8] =
    b"\x00\x00\x00\x12\x11\x04\x00\x00\x00\x04\x65\x53\xf1\x00\x00\x00\x00\x00\x00\x00\x00\x00";

/// One update follows, which takes bob away.
const UPDATES: &[u8] =
    b"\x00\x00\x00\x12\x11\x00\x00\x00\x00\x02\x65\x53\xf1\x00\x00\x00\x00\x00\x00\x00\x00\x01\
\x00\x00\x00\x21\x14\x00\x00\x00\x03\x65\x53\xf1\x00\x00\x00\x00\x00\x02\x00\x0fbob@EXAMPLE.ORG\x00\x00";

/// A dump of three bytes in two pieces.
const DUMP: &[u8] =
    b"\x00\x00\x00\x02\x12k\x00\x00\x00\x03\x12db\x00\x00\x00\x09\x13\x00\x00\x00\x00\x00\x00\x00\x03";

/// Bytes with which no message begins.
const HOSTILE: [&[u8]; 13] = [
    b"\x00\x00\x00\x00",
    b"\x00\x01\x00\x01",
    b"\xff\xff\xff\xff",
    b"\x00\x00\x00\x01\x99",
    // An update without a head, and a poll that is too long.
    b"\x00\x00\x00\x21\x14",
    b"\x00\x00\x00\x0e\x01\x00\x00\x00\x02\x65\x53\xf1\x00\x00\x00\x00\x00\x00",
    // A reply with the code 1, and one with nothing new and an update.
    b"\x00\x00\x00\x12\x11\x01\x00\x00\x00\x04\x65\x53\xf1\x00\x00\x00\x00\x00\x00\x00\x00\x00",
    b"\x00\x00\x00\x12\x11\x04\x00\x00\x00\x04\x65\x53\xf1\x00\x00\x00\x00\x00\x00\x00\x00\x01",
    // An update of kind 0.
    b"\x00\x00\x00\x12\x11\x00\x00\x00\x00\x02\x65\x53\xf1\x00\x00\x00\x00\x00\x00\x00\x00\x01\
\x00\x00\x00\x12\x14\x00\x00\x00\x03\x65\x53\xf1\x00\x00\x00\x00\x00\x00\x00\x00\x00\x00",
    // A point of a whole second of microseconds.
    b"\x00\x00\x00\x0d\x01\x00\x00\x00\x02\x65\x53\xf1\x00\x00\x0f\x42\x40",
    // An empty piece, a number that is not the sum, and a poll inside a dump.
    b"\x00\x00\x00\x01\x12",
    b"\x00\x00\x00\x02\x12k\x00\x00\x00\x09\x13\x00\x00\x00\x00\x00\x00\x00\x02",
    b"\x00\x00\x00\x02\x12k\x00\x00\x00\x0d\x01",
];

/// Whether the decoder refuses this piece.
fn refuses(decoder: &mut Decoder, piece: &[u8]) -> bool {
    decoder.feed(piece) == Err(FrameFault::BadFrame)
}

/// Whether the decoder refuses one of the pieces of this size, and what comes then too.
fn refuses_text(decoder: &mut Decoder, text: &[u8], size: usize) -> bool {
    for piece in text.chunks(size.max(1)) {
        if refuses(decoder, piece) {
            return refuses(decoder, POLL);
        }
    }
    false
}

/// Whether these bytes are refused when they come in pieces of this size, and what comes then too.
fn is_refused(alloc: Global, text: &[u8], size: usize) -> Result<bool, FrameFault> {
    let mut decoder = Decoder::new(alloc)?;
    Ok(refuses_text(&mut decoder, text, size))
}

fn feed_pieces(decoder: &mut Decoder, text: &[u8], size: usize) -> Result<(), FrameFault> {
    for piece in text.chunks(size.max(1)) {
        decoder.feed(piece)?;
    }
    Ok(())
}

/// The first message of these bytes, which come in pieces of this size.
fn first(alloc: Global, text: &[u8], size: usize) -> Result<Option<Message>, FrameFault> {
    let mut decoder = Decoder::new(alloc)?;
    feed_pieces(&mut decoder, text, size)?;
    Ok(decoder.next())
}

/// The kind of a message, the serial that it names, and how many updates or bytes it brings.
fn summary(message: &Option<Message>) -> (u8, u32, usize) {
    match message {
        None => (0, 0, 0),
        Some(Message::Hello(name)) => (1, 0, name.len()),
        Some(Message::Poll(asked)) => (2, asked.sno, 0),
        Some(Message::Ask) => (3, 0, 0),
        Some(Message::Reply(reply)) => (4, reply.asked().sno, reply.updates().len()),
        Some(Message::DumpText(text)) => (5, 0, text.len()),
    }
}

#[test]
fn hostile_frames_are_refused(rt: HostRuntime) -> Result<(), FrameFault> {
    for text in HOSTILE {
        for size in [1, 1000] {
            assert_eq!(rt; is_refused(rt.alloc(), text, size)?, true);
        }
    }
    Ok(())
}

/// What the first message of these bytes is.
fn check_first(
    rt: &impl Abort,
    alloc: Global,
    text: &[u8],
    size: usize,
    shown: (u8, u32, usize),
) -> Result<(), FrameFault> {
    let message = first(alloc, text, size)?;
    assert_eq!(rt; summary(&message), shown);
    Ok(())
}

#[test]
fn messages_come_in_pieces_of_any_size(rt: HostRuntime) -> Result<(), FrameFault> {
    let cases = [
        (POLL, (2, 2, 0)),
        (NIL, (4, 4, 0)),
        (UPDATES, (4, 2, 1)),
        (DUMP, (5, 0, 3)),
        (b"\x00\x00\x00\x04\x10bob", (1, 0, 3)),
        (b"\x00\x00\x00\x01\x02", (3, 0, 0)),
    ];
    for (text, shown) in cases {
        for size in [1, 5, 1000] {
            check_first(&rt, rt.alloc(), text, size, shown)?;
        }
    }
    Ok(())
}

/// Two messages, of which the first has five bytes.
const BOTH: &[u8; 11] = b"\x00\x00\x00\x01\x02\x00\x00\x00\x02\x10x";

/// What the decoder hands out.
fn handed_out(decoder: &mut Decoder) -> (u8, u32, usize) {
    let message = decoder.next();
    summary(&message)
}

/// While the first message waits, nothing is taken.
fn check_waiting(rt: &impl Abort, decoder: &mut Decoder) -> Result<(), FrameFault> {
    assert_eq!(rt; decoder.feed(BOTH)?, 5);
    assert_eq!(rt; decoder.feed(b"\x00\x00\x00\x02\x10x")?, 0);
    assert_eq!(rt; handed_out(decoder), (3, 0, 0));
    assert_eq!(rt; decoder.idle(), true);
    Ok(())
}

/// Then the second one comes in two pieces.
fn check_second(rt: &impl Abort, decoder: &mut Decoder) -> Result<(), FrameFault> {
    assert_eq!(rt; decoder.feed(b"\x00\x00\x00")?, 3);
    assert_eq!(rt; decoder.idle(), false);
    assert_eq!(rt; decoder.feed(b"\x02\x10x")?, 3);
    assert_eq!(rt; handed_out(decoder), (1, 0, 1));
    assert_eq!(rt; handed_out(decoder), (0, 0, 0));
    Ok(())
}

#[test]
fn the_second_of_two_messages_waits(rt: HostRuntime) -> Result<(), FrameFault> {
    let mut decoder = Decoder::new(rt.alloc())?;
    check_waiting(&rt, &mut decoder)?;
    check_second(&rt, &mut decoder)
}

#[test]
fn a_poll_is_written(rt: HostRuntime) -> Result<(), FrameFault> {
    let point = Point {
        sno: 2,
        time: Time::new(1700000000, 0),
    };
    let poll = Message::Poll(point);
    let text = write_message(rt.alloc(), &poll)?;
    assert_eq!(rt; text.as_slice(), POLL);
    Ok(())
}

//! Messages, and how they are written.

ghost use Rattle.std.specs.Prelude.{◌≡◌, ◌++◌, ◌≤◌, ◌<◌, ◌^◌, length, IfOk, OnOk};
ghost use Rattle.iprop_wire.specs.declared.messages.Message.TheVariants.{Poll, Reply};
ghost use Rattle.std.specs.List.{All, flat_map};
ghost use Rattle.kdb_format.specs.Spellings.{big};
ghost use Rattle.princ_rows.specs.Entries.{IsSent};
ghost use Rattle.iprop_wire.specs.Frames.{frame_text, most_behind, reply_kind};
ghost use Rattle.iprop_wire.specs.Messages.{FitsFrames, dump_frames, head_of, head_text};
ghost use Rattle.iprop_wire.specs.Messages.{message_text, pieces_text, update_text};

use crate::formats::{Head, HeadFormat, PointFormat, TotalFormat};
use kdb_base::{Blob, MemoryOut, Point};
use kdb_format::Format;
use kdb_format::writing::{push_bytes, push_u8, push_u32};
use princ_rows::entries::SentFormat;
use princ_rows::{Entry, PollReply};
use std::alloc::Global;

/// The kinds of frames from a replica.
pub const HELLO: u8 = 0x10;

pub const POLL: u8 = 0x01;

pub const ASK: u8 = 0x02;
/// The kinds of frames from a primary.
pub const REPLY: u8 = 0x11;

pub const UPDATE: u8 = 0x14;

pub const PIECE: u8 = 0x12;

pub const TOTAL: u8 = 0x13;

/// The most bytes of a frame behind its kind.
pub const MOST_BEHIND: usize = 65535;

/// A message of incremental propagation. A node that serves other replicas sends what a primary sends.
#[derive(Debug, Drop)]
pub enum Message {
    /// A replica says who it is, by its printed name. The grammar takes any bytes.
    Hello(Blob),
    /// A replica asks for what came after this point.
    Poll(Point),
    /// A replica asks for a dump.
    Ask,
    /// What came after a point, or why nothing is told.
    Reply(PollReply),
    /// The text of a dump.
    DumpText(Blob),
}

/// Appends a frame.
#[tactic(auto, unfolding(crate::specs::Frames::frame_text))]
fn push_frame(out: &mut Vec<u8>, kind: u8, behind: &[u8]) -> Result<(), MemoryOut>
    requires { length behind.now ≤ most_behind }
    ensures { OnOk result (out.new.items ≡ out.old.items ++ frame_text kind behind.now) }
{
    push_u32(out, 1 + behind.len() as u32)?;
    push_u8(out, kind)?;
    push_bytes(out, behind)?;
    Ok(())
}

/// Appends a frame in which a value stands.
fn push_value<F: Format>(
    alloc: Global,
    out: &mut Vec<u8>,
    kind: u8,
    value: &F::Value,
) -> Result<(), MemoryOut>
    requires fits { F.fits value.now }
    requires short { length (F.spelling value.now) ≤ most_behind }
    ensures { OnOk result (out.new.items ≡ out.old.items ++ frame_text kind (F.spelling value.now)) }
{
    let mut behind = Vec::new(alloc);
    F::write(&mut behind, value)?;
    push_frame(out, kind, &behind)
}

/// Appends a poll from this point.
#[tactic(auto, unfolding(crate::specs::Messages::message_text))]
fn push_poll(alloc: Global, out: &mut Vec<u8>, asked: Point) -> Result<(), MemoryOut>
    ensures { OnOk result (out.new.items ≡ out.old.items ++ message_text (Poll asked)) }
{
    push_value::<PointFormat>(alloc, out, POLL, &asked)
}

/// Appends the first frame of a reply.
fn push_head(alloc: Global, out: &mut Vec<u8>, head: Head) -> Result<(), MemoryOut>
    ensures { OnOk result (out.new.items ≡ out.old.items ++ frame_text reply_kind (head_text head)) }
{
    push_value::<HeadFormat>(alloc, out, REPLY, &head)
}

/// Appends an update.
#[tactic(auto, unfolding(crate::specs::Messages::update_text))]
fn push_update(alloc: Global, out: &mut Vec<u8>, entry: &Entry) -> Result<(), MemoryOut>
    requires { IsSent entry.now }
    ensures { OnOk result (out.new.items ≡ out.old.items ++ update_text entry.now) }
{
    push_value::<SentFormat>(alloc, out, UPDATE, entry)
}

fn push_updates(alloc: Global, out: &mut Vec<u8>, updates: &[Entry]) -> Result<(), MemoryOut>
    requires { All IsSent updates.now }
    ensures { OnOk result (out.new.items ≡ out.old.items ++ flat_map update_text updates.now) }
{
    for entry in updates {
        push_update(alloc, out, entry)?;
    }
    Ok(())
}

/// Appends a reply: its head, and a frame for each update.
#[tactic(auto, unfolding(crate::specs::Messages::message_text))]
fn push_reply(alloc: Global, out: &mut Vec<u8>, reply: &PollReply) -> Result<(), MemoryOut>
    requires { length reply.now.updates < 2 ^ 32 }
    ensures { OnOk result (out.new.items ≡ out.old.items ++ message_text (Reply reply.now)) }
{
    let updates = reply.updates();
    let head = Head {
        code: reply.code(),
        asked: reply.asked(),
        count: updates.len() as u32,
    };
    push_head(alloc, out, head)?;
    push_updates(alloc, out, updates)?;
    Ok(())
}

/// Appends the text of a dump in pieces as long as may be.
fn push_pieces(out: &mut Vec<u8>, text: &[u8]) -> Result<(), MemoryOut>
    ensures { OnOk result (out.new.items ≡ out.old.items ++ pieces_text (length text.now) text.now) }
{
    let mut rest = text;
    while !rest.is_empty() {
        let (piece, behind) = rest.split_at(rest.len().min(MOST_BEHIND));
        push_frame(out, PIECE, piece)?;
        rest = behind;
    }
    Ok(())
}

/// Appends a dump: its text in pieces, and how long it was.
#[tactic(auto, unfolding(crate::specs::Messages::dump_frames))]
fn push_dump(alloc: Global, out: &mut Vec<u8>, text: &[u8]) -> Result<(), MemoryOut>
    ensures { OnOk result (out.new.items ≡ out.old.items ++ dump_frames text.now) }
{
    push_pieces(out, text)?;
    push_value::<TotalFormat>(alloc, out, TOTAL, &(text.len() as u64))?;
    Ok(())
}

#[tactic(auto, unfolding(crate::specs::Messages::message_text))]
fn push_message(alloc: Global, out: &mut Vec<u8>, message: &Message) -> Result<(), MemoryOut>
    requires { FitsFrames message.now }
    ensures { OnOk result (out.new.items ≡ out.old.items ++ message_text message.now) }
{
    match message {
        Message::Hello(name) => push_frame(out, HELLO, name.as_slice()),
        Message::Poll(asked) => push_poll(alloc, out, *asked),
        Message::Ask => push_frame(out, ASK, &[]),
        Message::Reply(reply) => push_reply(alloc, out, reply),
        Message::DumpText(text) => push_dump(alloc, out, text.as_slice()),
    }
}

/// The bytes of a message, those of a dump in pieces as long as may be. Only want of memory can refuse it.
pub fn write_message(alloc: Global, message: &Message) -> Result<Blob, MemoryOut>
    requires { FitsFrames message.now }
    ensures { IfOk result (λ text. text ≡ message_text message.now) }
{
    let mut out = Vec::new(alloc);
    push_message(alloc, &mut out, message)?;
    Ok(Blob::from_vec(out))
}

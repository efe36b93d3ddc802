//! What the whole frames of a message began.

ghost use Rattle.std.specs.Prelude.{◌≡◌, ◌<◌, [], OnOk};
ghost use Rattle.std.specs.List.{All};
ghost use Rattle.kdb_format.specs.Moments.{point_at};
ghost use Rattle.kdb_format.specs.Readings.{big_at, whole};
ghost use Rattle.princ_rows.specs.Entries.{IsSent};
ghost use Rattle.princ_rows.specs.declared.replies.ReplyCode.TheVariants.{UpdateOk};
ghost use Rattle.iprop_wire.specs.Answers.{Closes, ClosesFirst, IsBegun, begun};
ghost use Rattle.iprop_wire.specs.Decoding.{Nothing, Waits, after_ask, after_dump_frame};
ghost use Rattle.iprop_wire.specs.Decoding.{after_first_frame, after_frame, after_head, after_piece};
ghost use Rattle.iprop_wire.specs.Decoding.{after_total, after_update, after_update_frame, head_at};
ghost use Rattle.iprop_wire.specs.Decoding.{is_nothing, is_of_dump, may_begin, may_come, or_broken};
ghost use Rattle.iprop_wire.specs.Due.{is_due_begun};
ghost use Rattle.iprop_wire.specs.declared.messages.Message.TheVariants.{Hello, Poll, Reply};

use crate::due::{Due, is_due_kind, wants_dump};
use crate::faults::FrameFault;
use crate::formats::{HeadFormat, PointFormat, TotalFormat};
use crate::messages::{ASK, HELLO, Message, PIECE, POLL, REPLY, TOTAL, UPDATE};
use kdb_base::{Blob, Point};
use kdb_format::read_whole;
use kdb_format::writing::push_bytes;
use princ_rows::entries::SentFormat;
use princ_rows::{Entries, Entry, PollReply, ReplyCode};
use std::alloc::Global;
use std::mem;

#[derive(Clone, Copy, Debug)]
pub(crate) enum Part {
    Nothing,
    /// An accepted reply to a poll from this point, of which so many updates are to come.
    Updates { asked: Point, left: u32 },
    /// A dump.
    Pieces,
}

/// Whether a frame of this kind is of a dump.
fn is_of_dump(kind: u8) -> bool
    ensures { result ≡ is_of_dump kind }
{
    kind == PIECE || kind == TOTAL
}

/// Whether a frame of this kind may be the first of a message.
fn may_begin(kind: u8) -> bool
    ensures { result ≡ may_begin kind }
{
    kind == HELLO || kind == POLL || kind == ASK || kind == REPLY || is_of_dump(kind)
}

/// The message of a replica that says who it is.
fn hello_in(alloc: Global, behind: &[u8]) -> Result<Option<Message>, FrameFault>
    ensures { ClosesFirst result (Waits (Hello behind.now)) }
{
    let name = Blob::from_bytes(alloc, behind)?;
    Ok(Some(Message::Hello(name)))
}

/// The message of a replica that asks for what came after a point.
fn poll_in(alloc: Global, behind: &[u8]) -> Result<Option<Message>, FrameFault>
    ensures { ClosesFirst result (or_broken (whole point_at behind.now) (λ asked. Waits (Poll asked))) }
{
    let asked = read_whole::<PointFormat>(alloc, behind)?;
    Ok(Some(Message::Poll(asked)))
}

/// The message of a replica that asks for a dump.
fn ask_in(behind: &[u8]) -> Result<Option<Message>, FrameFault>
    ensures { ClosesFirst result (after_ask behind.now) }
{
    if !behind.is_empty() {
        return Err(FrameFault::BadFrame);
    }
    Ok(Some(Message::Ask))
}

/// A reply without updates.
fn empty_reply(alloc: Global, code: ReplyCode, asked: Point) -> Message
    ensures { result ≡ Reply (record { code = code; asked = asked; updates = [] }) }
{
    let none = Entries::from_vec(Vec::new(alloc));
    Message::Reply(PollReply::new(code, asked, none))
}

/// A reply with these updates.
fn full_reply(asked: Point, updates: Vec<Entry>) -> Message
    requires { All IsSent updates.items }
    ensures { result ≡ Reply (record { code = UpdateOk; asked = asked; updates = updates.items }) }
{
    let updates = Entries::from_vec(updates);
    Message::Reply(PollReply::new(ReplyCode::UpdateOk, asked, updates))
}

/// What the whole frames of a message began.
#[derive(Debug, Drop)]
pub(crate) struct Progress {
    part: Part,
    updates: Vec<Entry>,
    text: Vec<u8>,
}

impl Progress {
    /// No frame came.
    pub(crate) fn new(alloc: Global) -> Progress
        ensures begun { begun result ≡ Nothing }
        ensures kept { IsBegun result }
    {
        Progress {
            part: Part::Nothing,
            updates: Vec::new(alloc),
            text: Vec::new(alloc),
        }
    }

    /// Whether no frame came.
    pub(crate) fn is_nothing(&self) -> bool
        ensures { result ≡ is_nothing (begun self.now) }
    {
        matches!(self.part, Part::Nothing)
    }

    /// Whether a frame of this kind may come next.
    #[tactic(auto, unfolding(crate::specs::Decoding::may_come))]
    pub(crate) fn may_come(&self, kind: u8) -> bool
        ensures { result ≡ may_come (begun self.now) kind }
    {
        match self.part {
            Part::Nothing => may_begin(kind),
            Part::Updates { .. } => kind == UPDATE,
            Part::Pieces => is_of_dump(kind),
        }
    }

    /// Whether what began, with these bytes of the next frame, goes on to what is due.
    pub(crate) fn is_due(&self, due: Due, held: &[u8]) -> bool
        ensures { result ≡ is_due_begun due (begun self.now) held.now }
    {
        match self.part {
            Part::Nothing => held.len() < 5 || is_due_kind(due, held[4]),
            Part::Updates { .. } => !wants_dump(due),
            Part::Pieces => wants_dump(due),
        }
    }

    /// Takes the first frame of a reply.
    fn take_head(&mut self, alloc: Global, behind: &[u8]) -> Result<Option<Message>, FrameFault>
        requires nothing { begun self.old ≡ Nothing }
        requires kept { IsBegun self.old }
        ensures closes { Closes result (or_broken (whole head_at behind.now) after_head) (begun self.new) }
        ensures kept { OnOk result (IsBegun self.new) }
    {
        let head = read_whole::<HeadFormat>(alloc, behind)?;
        if head.count == 0 {
            return Ok(Some(empty_reply(alloc, head.code, head.asked)));
        }
        if head.code != ReplyCode::UpdateOk {
            return Err(FrameFault::BadFrame);
        }
        self.updates = Vec::new(alloc);
        self.part = Part::Updates {
            asked: head.asked,
            left: head.count,
        };
        Ok(None)
    }

    /// Takes an update, of which so many are to come.
    fn put_update(
        &mut self,
        alloc: Global,
        asked: Point,
        left: u32,
        entry: Entry,
    ) -> Result<Option<Message>, FrameFault>
        requires sent { IsSent entry }
        requires before { All IsSent self.old.updates.items }
        requires no_text { self.old.text.items ≡ [] }
        requires some { 0 < left }
        ensures closes { Closes result (after_update asked left self.old.updates.items entry) (begun self.new) }
        ensures kept { OnOk result (IsBegun self.new) }
    {
        self.updates.push(entry)?;
        if left > 1 {
            self.part = Part::Updates {
                asked,
                left: left - 1,
            };
            return Ok(None);
        }
        self.part = Part::Nothing;
        let updates = mem::replace(&mut self.updates, Vec::new(alloc));
        Ok(Some(full_reply(asked, updates)))
    }

    /// Takes a frame behind the head of a reply.
    #[tactic(auto, unfolding(crate::specs::Decoding::after_update_frame))]
    fn take_update(
        &mut self,
        alloc: Global,
        asked: Point,
        left: u32,
        kind: u8,
        behind: &[u8],
    ) -> Result<Option<Message>, FrameFault>
        requires before { All IsSent self.old.updates.items }
        requires no_text { self.old.text.items ≡ [] }
        requires some { 0 < left }
        ensures closes { Closes result (after_update_frame asked left self.old.updates.items kind behind.now)
            (begun self.new) }
        ensures kept { OnOk result (IsBegun self.new) }
    {
        if kind != UPDATE {
            return Err(FrameFault::BadFrame);
        }
        match read_whole::<SentFormat>(alloc, behind) {
            Ok(entry) => self.put_update(alloc, asked, left, entry),
            Err(fault) => Err(FrameFault::from(fault)),
        }
    }

    /// Takes a piece of a dump.
    fn put_piece(&mut self, piece: &[u8]) -> Result<Option<Message>, FrameFault>
        requires { self.old.updates.items ≡ [] }
        ensures closes { Closes result (after_piece self.old.text.items piece.now) (begun self.new) }
        ensures kept { OnOk result (IsBegun self.new) }
    {
        if piece.is_empty() {
            return Err(FrameFault::BadFrame);
        }
        push_bytes(&mut self.text, piece)?;
        self.part = Part::Pieces;
        Ok(None)
    }

    /// Takes the frame that ends a dump.
    fn take_total(&mut self, alloc: Global, behind: &[u8]) -> Result<Option<Message>, FrameFault>
        requires { self.old.updates.items ≡ [] }
        ensures closes { Closes result (or_broken (whole (big_at 8) behind.now) (after_total self.old.text.items))
            (begun self.new) }
        ensures kept { OnOk result (IsBegun self.new) }
    {
        let total = read_whole::<TotalFormat>(alloc, behind)?;
        if total != self.text.len() as u64 {
            return Err(FrameFault::BadFrame);
        }
        self.part = Part::Nothing;
        let text = mem::replace(&mut self.text, Vec::new(alloc));
        Ok(Some(Message::DumpText(Blob::from_vec(text))))
    }

    /// Takes a frame of a dump.
    #[tactic(auto, unfolding(crate::specs::Decoding::after_dump_frame))]
    fn take_of_dump(
        &mut self,
        alloc: Global,
        kind: u8,
        behind: &[u8],
    ) -> Result<Option<Message>, FrameFault>
        requires { self.old.updates.items ≡ [] }
        ensures closes { Closes result (after_dump_frame self.old.text.items kind behind.now) (begun self.new) }
        ensures kept { OnOk result (IsBegun self.new) }
    {
        match kind {
            PIECE => self.put_piece(behind),
            TOTAL => self.take_total(alloc, behind),
            _ => Err(FrameFault::BadFrame),
        }
    }

    /// Takes the first frame of a message.
    #[tactic(auto, unfolding(crate::specs::Decoding::after_first_frame))]
    fn take_first(
        &mut self,
        alloc: Global,
        kind: u8,
        behind: &[u8],
    ) -> Result<Option<Message>, FrameFault>
        requires nothing { begun self.old ≡ Nothing }
        requires kept { IsBegun self.old }
        requires no_updates { self.old.updates.items ≡ [] }
        ensures closes { Closes result (after_first_frame kind behind.now) (begun self.new) }
        ensures kept { OnOk result (IsBegun self.new) }
    {
        self.text.clear();
        match kind {
            HELLO => hello_in(alloc, behind),
            POLL => poll_in(alloc, behind),
            ASK => ask_in(behind),
            REPLY => self.take_head(alloc, behind),
            _ => self.take_of_dump(alloc, kind, behind),
        }
    }

    /// Takes a whole frame: its kind, and the bytes behind it.
    #[tactic(auto, unfolding(crate::specs::Decoding::after_frame))]
    pub(crate) fn take_frame(
        &mut self,
        alloc: Global,
        kind: u8,
        behind: &[u8],
    ) -> Result<Option<Message>, FrameFault>
        requires { IsBegun self.old }
        ensures closes { Closes result (after_frame (begun self.old) kind behind.now) (begun self.new) }
        ensures kept { OnOk result (IsBegun self.new) }
    {
        match self.part {
            Part::Nothing => self.take_first(alloc, kind, behind),
            Part::Updates { asked, left } => self.take_update(alloc, asked, left, kind, behind),
            Part::Pieces => self.take_of_dump(alloc, kind, behind),
        }
    }
}

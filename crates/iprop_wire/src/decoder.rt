//! A decoder: messages out of bytes that come in pieces of any size.

ghost use Rattle.std.specs.Prelude.{◌≡◌, ◌≤◌, ◌<◌, ◌++◌, ℕ, Ok, Err, true, IfOk, OnOk, length};
ghost use Rattle.byteorder.specs.Endian.{big_number};
ghost use Rattle.iprop_wire.specs.Answers.{Advances, IsBegun, Settles, begun, need, refused};
ghost use Rattle.iprop_wire.specs.Decoding.{Broken, Going, Spent, State, Takes, Waits, fed, fresh};
ghost use Rattle.iprop_wire.specs.Decoding.{handed_out, is_going, is_idle, is_length, settled, waiting_in};
ghost use Rattle.iprop_wire.specs.Due.{is_due};
ghost use Rattle.iprop_wire.specs.declared.faults.FrameFault.{FrameFault};
ghost use Rattle.iprop_wire.specs.declared.faults.FrameFault.TheVariants.{BadFrame as IsBadFrame};
ghost use Rattle.iprop_wire.specs.declared.faults.FrameFault.TheVariants.{MemoryOut as IsMemoryOut};
ghost use Rattle.iprop_wire.specs.declared.messages.Message.{Message};

use crate::due::{Due, is_due_message};
use crate::faults::FrameFault;
use crate::messages::Message;
use crate::progress::Progress;
use byteorder::{BigEndian, ByteOrder};
use kdb_base::MemoryOut;
use kdb_format::writing::push_bytes;
use std::alloc::Global;
use std::marker::Model;

/// The most bytes of a frame's body: its kind, and what stands behind it.
const LONGEST_BODY: u32 = 65536;

/// The number of bytes of a body, where its four bytes came.
fn length_in(held: &[u8]) -> u32
    requires { 4 ≤ length held.now }
    ensures { result ≡ big_number 4 held.now }
{
    BigEndian::read_u32(held)
}

fn is_length(length: u32) -> bool
    ensures { result ≡ is_length length }
{
    0 < length && length <= LONGEST_BODY
}

/// How many bytes more are judged together: those of the length, the kind, or what stands behind it.
#[tactic(auto, unfolding(crate::specs::Answers::need))]
fn need(held: &[u8]) -> usize
    ensures { result ≡ need held.now }
{
    if held.len() < 4 {
        return 4 - held.len();
    }
    if held.len() == 4 {
        return 1;
    }
    (4 + length_in(held) as usize).saturating_sub(held.len())
}

/// Judges what is held of a frame, and takes the frame where it is whole.
#[tactic(auto, unfolding(crate::specs::Decoding::settled))]
fn settle(
    alloc: Global,
    progress: &mut Progress,
    held: &mut Vec<u8>,
) -> Result<Option<Message>, FrameFault>
    requires { IsBegun progress.old }
    ensures settles { Settles result (settled (begun progress.old) held.old.items) (begun progress.new) held.new.items }
    ensures kept { OnOk result (IsBegun progress.new) }
{
    if held.len() < 4 {
        return Ok(None);
    }
    let length = length_in(held);
    if !is_length(length) {
        return Err(FrameFault::BadFrame);
    }
    if held.len() < 5 {
        return Ok(None);
    }
    if !progress.may_come(held[4]) {
        return Err(FrameFault::BadFrame);
    }
    if held.len() < 4 + length as usize {
        return Ok(None);
    }
    let message = progress.take_frame(alloc, held[4], &held[5..])?;
    held.clear();
    Ok(message)
}

/// Takes bytes behind what is held, and judges what is held then.
fn take_some(
    alloc: Global,
    progress: &mut Progress,
    held: &mut Vec<u8>,
    bytes: &[u8],
) -> Result<Option<Message>, FrameFault>
    requires { IsBegun progress.old }
    ensures settles { Settles result (settled (begun progress.old) (held.old.items ++ bytes.now))
        (begun progress.new) held.new.items }
    ensures kept { OnOk result (IsBegun progress.new) }
{
    push_bytes(held, bytes)?;
    settle(alloc, progress, held)
}

/// Reads messages that come in pieces of any size. Memory is bounded by one frame and one message.
#[derive(Debug, Drop)]
pub struct Decoder {
    alloc: Global,
    progress: Progress,
    /// The bytes of the frame that is not whole.
    held: Vec<u8>,
    waiting: Option<Message>,
    fault: Option<FrameFault>,
}

impl Model for Decoder {
    ghost use Rattle.iprop_wire.specs.Answers.{IsBegun, IsHeld, begun, state_of};
    ghost use Rattle.iprop_wire.specs.Decoding.{State};

    ghost Value = { State };

    ghost view = { λ d. state_of d.waiting d.fault (begun d.progress) d.held.items };

    ghost invariant = { λ d. IsHeld d.waiting d.fault d.progress d.held.items };
}

impl Decoder {
    /// A decoder that took no bytes. Only want of memory can refuse it.
    pub fn new(alloc: Global) -> Result<Decoder, MemoryOut>
        ensures { IfOk result (λ d. d ≡ fresh) }
    {
        Ok(Decoder {
            alloc,
            progress: Progress::new(alloc),
            held: Vec::new(alloc),
            waiting: None,
            fault: None,
        })
    }

    /// Whether it takes bytes.
    fn takes(&self) -> bool
        ensures { result ≡ is_going self.now }
    {
        self.waiting.is_none() && self.fault.is_none()
    }

    /// Takes bytes of the frame that is not whole, up to where they are judged.
    fn advance(&mut self, bytes: &[u8]) -> Result<usize, FrameFault>
        requires going { is_going self.old ≡ true }
        requires some { 0 < length bytes.now }
        ensures ok { IfOk result (λ count. Advances bytes.now self.old count self.new) }
        ensures bad { result ≡ Err IsBadFrame → fed self.old bytes.now ≡ Broken }
        ensures fault { (fault : FrameFault) → result ≡ Err fault → self.new ≡ refused fault }
    {
        let count = need(&self.held).min(bytes.len());
        match take_some(
            self.alloc,
            &mut self.progress,
            &mut self.held,
            &bytes[..count],
        ) {
            Ok(message) => {
                self.waiting = message;
                Ok(count)
            }
            Err(fault) => {
                self.fault = Some(fault);
                Err(fault)
            }
        }
    }

    /// Takes the bytes up to the end of the first whole message in them, or all of them where no message ends
    /// in them, and tells how many that are. While a message waits it takes none. `BadFrame` where no message
    /// goes on with these bytes behind those that were taken: a length is judged once its four bytes came, a
    /// kind once it came, and what stands behind it once it came whole. After a fault every later call answers
    /// that fault.
    pub fn feed(&mut self, piece: &[u8]) -> Result<usize, FrameFault>
        // What was taken leads to what these bytes lead to, however they are cut into pieces.
        ensures ok { IfOk result (λ count. Takes piece.now self.old count self.new) }
        ensures bad { result ≡ Err IsBadFrame → fed self.old piece.now ≡ Broken }
        ensures broken { result ≡ Err IsBadFrame → self.new ≡ Broken }
        ensures spent { result ≡ Err IsMemoryOut → self.new ≡ Spent }
        ensures stays { self.old ≡ Broken → result ≡ Err IsBadFrame }
        ensures stays_spent { self.old ≡ Spent → result ≡ Err IsMemoryOut }
        ensures waits { (message : Message) → self.old ≡ Waits message → result ≡ Ok 0 }
    {
        if self.waiting.is_some() {
            return Ok(0);
        }
        if let Some(fault) = self.fault {
            return Err(fault);
        }
        let mut rest = piece;
        while self.takes() && !rest.is_empty() {
            match self.advance(rest) {
                Ok(count) => rest = &rest[count..],
                Err(fault) => return Err(fault),
            }
        }
        Ok(piece.len() - rest.len())
    }

    /// Hands out the message that waits. None exactly where none waits.
    pub fn next(&mut self) -> Option<Message>
        ensures message { result ≡ waiting_in self.old }
        ensures left { self.new ≡ handed_out self.old }
    {
        self.waiting.take()
    }

    /// Whether the bytes that were taken end with a whole message, or are none.
    pub fn idle(&self) -> bool
        ensures { result ≡ is_idle self.now }
    {
        if self.waiting.is_some() {
            return true;
        }
        self.fault.is_none() && self.progress.is_nothing() && self.held.is_empty()
    }

    /// Whether the bytes that were taken are what is due, or go on to it: they are judged once the kind of the first
    /// frame came, and those of a reply once the first frame came whole too.
    pub fn is_due(&self, due: Due) -> bool
        ensures { result ≡ is_due due self.now }
    {
        match &self.waiting {
            Some(message) => is_due_message(due, message),
            None => self.fault.is_none() && self.progress.is_due(due, &self.held),
        }
    }
}

//! Messages received over a link.
ghost use Rattle.std.specs.Prelude.{◌≡◌, ◌≤◌, ◌<◌, ◌+◌, ◌⊎◌, [], true, false, length, option_map};
ghost use Rattle.std.specs.Prelude.{Option, Some, None, Err, Ok, IfErr, IfOk, OnErr, OnOk};
ghost use Rattle.iprop_links.specs.Arriving.{Arrives, Counts, EndsEarly, HasEnded, HasGiven, Holds};
ghost use Rattle.iprop_links.specs.Arriving.{IsOver, Needs, StopsShort, coming, in_all, led};
ghost use Rattle.iprop_wire.specs.Decoding.{fed, fresh, is_going};
ghost use Rattle.iprop_wire.specs.Due.{narrowed};
ghost use Rattle.iprop_wire.specs.declared.messages.Message.{Message as Heard};
ghost use Rattle.kdb_ports.specs.Links.{Wire, before_received};

use crate::halts::LinkHalt;
use crate::pieces::Piece;
use iprop_wire::{Decoder, Due, FrameFault, Message};
use kdb_base::MemoryOut;
use kdb_ports::Link;
use std::alloc::Global;
use std::marker::Model;

/// How many bytes are received at most.
const MOST_RECEIVED: u64 = 4294967296;

/// What came of the bytes that a connection gives.
#[derive(Debug, Drop)]
pub enum Arrival {
    /// The message that was due.
    Came(Message),
    /// The peer ended before its end.
    Cut,
    /// No message that is due goes on with these bytes.
    Bad,
}

/// The messages that come on one connection, one after the other. What came behind a message waits for the next
/// call.
#[derive(Debug, Drop)]
pub struct Inbox {
    decoder: Decoder,
    piece: Piece,
    received: u64,
}

impl Model for Inbox {
    ghost use Rattle.std.specs.Prelude.{◌≤◌};
    ghost use Rattle.iprop_links.specs.Arriving.{InboxState};

    ghost Value = { InboxState };

    ghost view = { λ i. record { state = i.decoder; pending = i.piece; received = i.received } };

    ghost invariant = { λ i. i.received ≤ 4294967296 };
}

impl Inbox {
    /// Nothing was received. Only want of memory can refuse it.
    pub fn new(alloc: Global) -> Result<Inbox, MemoryOut>
        ensures { IfOk result (λ i. i ≡ record { state = fresh; pending = []; received = 0 }) }
    {
        let decoder = Decoder::new(alloc)?;
        let piece = Piece::new(alloc)?;
        Ok(Inbox {
            decoder,
            piece,
            received: 0,
        })
    }

    /// Takes what waits, up to the end of a message.
    fn take_held(&mut self, due: Due) -> Result<Option<Arrival>, LinkHalt>
        ensures holds { (told : Option Wire) → Holds due result self.old.state
            (coming self.old.pending told) self.new.state (coming self.new.pending told) }
        ensures fresh { (message : Heard) → result ≡ Ok (Some (Arrival.Came message)) → self.new.state ≡ fresh }
        ensures going { result ≡ Ok None → is_going (narrowed due self.new.state) ≡ true }
        ensures ended { (arrival : Arrival) → result ≡ Ok (Some arrival)
            → is_going (led due self.old.state self.old.pending) ≡ false }
        ensures leads { result ≡ Ok None → self.new.state ≡ fed self.old.state self.old.pending }
        ensures none { result ≡ Ok None → self.new.pending ≡ [] }
        ensures halt { IfErr result (λ halt. halt ≡ LinkHalt.MemoryOut) }
        ensures received { self.new.received ≡ self.old.received }
        ensures room { self.new.received ≤ 4294967296 }
    {
        match self.decoder.feed(self.piece.waiting()) {
            Ok(count) => self.piece.pass(count),
            Err(FrameFault::BadFrame) => return Ok(Some(Arrival::Bad)),
            Err(FrameFault::MemoryOut) => return Err(LinkHalt::MemoryOut),
        }
        if !self.decoder.is_due(due) {
            return Ok(Some(Arrival::Bad));
        }
        match self.decoder.next() {
            Some(message) => Ok(Some(Arrival::Came(message))),
            None => Ok(None),
        }
    }

    /// Receives the next bytes, where none wait. It answers whether there are any.
    fn read_on<L: Link>(&mut self, link: &mut L) -> Result<bool, LinkHalt>
        requires none { self.old.pending ≡ [] }
        ensures state { self.new.state ≡ self.old.state }
        ensures same { coming self.new.pending (L.wire link.new) ≡ coming self.old.pending (L.wire link.old) }
        ensures over { result ≡ Ok false → IsOver (coming self.new.pending (L.wire link.new)) }
        ensures gave { HasGiven (L.wire link.old) (L.wire link.new) }
        ensures piece { L.wire link.old ≡ before_received self.new.pending (L.wire link.new) }
        ensures few { length self.new.pending ≤ 16384 }
        ensures err { OnErr result (L.wire link.new ≡ L.wire link.old) }
        ensures received { in_all self.old.received (L.wire link.old) ≡ in_all self.new.received (L.wire link.new) }
        ensures falls { result ≡ Ok true → self.old.received < self.new.received }
        ensures room { self.new.received ≤ 4294967296 }
        ensures early { result ≡ Ok false → self.new.received < 4294967296 }
        ensures too_long { result ≡ Err LinkHalt.InputTooLong → self.new.received ≡ 4294967296 }
        ensures faults { Counts (L.faults link.old) (L.faults link.new) (result ≡ Err LinkHalt.LinkFault) }
    {
        let limit = MOST_RECEIVED - self.received;
        if limit == 0 {
            return Err(LinkHalt::InputTooLong);
        }
        match self.piece.receive(link, limit) {
            Ok(count) => {
                self.received += count as u64;
                Ok(count > 0)
            }
            Err(_) => Err(LinkHalt::LinkFault),
        }
    }

    /// Receives up to the end of the next message. What is received behind it waits. Bytes that are, or go on to, a
    /// message that is not due are refused once that shows. The link is read only where more has to come.
    ///
    /// # Errors
    ///
    /// `InputTooLong` where 4294967296 bytes were received in all, none of them waits, and neither a message nor the
    /// peer had ended; `LinkFault` where the link failed; `MemoryOut` where memory is wanted and not given.
    pub fn next<L: Link>(&mut self, link: &mut L, due: Due) -> Result<Arrival, LinkHalt>
        ensures arrives { IfOk result (λ a. Arrives due a self.old.state (coming self.old.pending (L.wire link.old))
            (coming self.new.pending (L.wire link.new))) }
        ensures fresh { (message : Heard) → result ≡ Ok (Arrival.Came message) → self.new.state ≡ fresh }
        ensures gave { HasGiven (L.wire link.old) (L.wire link.new) }
        ensures received { in_all self.old.received (L.wire link.old) ≡ in_all self.new.received (L.wire link.new) }
        ensures room { self.new.received ≤ 4294967296 }
        // No call is made where the bytes that wait are enough, and none behind one whose bytes are.
        ensures reads { (link.new ≡ link.old)
            ⊎ Needs due self.old.state self.old.pending (L.wire link.old) (L.wire link.new) }
        // An answer is made of what was received, or of the peer's end before 4294967296 bytes were.
        ensures in_time { OnOk result (HasEnded due self.old.state self.old.pending (L.wire link.old) (L.wire link.new)
            ⊎ EndsEarly self.new.received (coming self.new.pending (L.wire link.new))) }
        ensures short { IfErr result
            (λ halt. StopsShort halt due self.old.state self.old.pending (L.wire link.old) (L.wire link.new)) }
        ensures too_long { result ≡ Err LinkHalt.InputTooLong → self.new.received ≡ 4294967296 }
        ensures faults { Counts (L.faults link.old) (L.faults link.new) (result ≡ Err LinkHalt.LinkFault) }
    {
        loop {
            match self.take_held(due) {
                Ok(Some(arrival)) => return Ok(arrival),
                Ok(None) => {}
                Err(halt) => return Err(halt),
            }
            match self.read_on(link) {
                Ok(true) => {}
                Ok(false) => return Ok(Arrival::Cut),
                Err(halt) => return Err(halt),
            }
        }
    }
}

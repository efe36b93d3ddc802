//! What a replica says on a connection, and what comes of it.
ghost use Rattle.std.specs.Prelude.{◌≡◌, ◌≤◌, ◌⊎◌, ◌∷◌, [], length, option_map, List, ℕ};
ghost use Rattle.std.specs.Prelude.{Option, Some, Err, Ok, IfErr, IfOk, OnErr, OnOk};
ghost use Rattle.iprop_links.specs.Arriving.{ArrivesOf, Counts, IsUnended, Needs, coming, in_all};
ghost use Rattle.iprop_links.specs.Asking.{MaySay, greeting, later_in, sent_in};
ghost use Rattle.iprop_wire.specs.Decoding.{fresh};
ghost use Rattle.iprop_wire.specs.Frames.{most_behind};
ghost use Rattle.iprop_wire.specs.Messages.{FitsFrames, message_text};
ghost use Rattle.iprop_wire.specs.declared.messages.Message.{Message as Heard};
ghost use Rattle.iprop_wire.specs.declared.messages.Message.TheVariants.{Ask, Hello};
ghost use Rattle.kdb_ports.specs.Links.{Wire, after_dial, after_sent, behind_first, first_of};

use crate::halts::LinkHalt;
use crate::inbox::{Arrival, Inbox};
use crate::sending::send_message;
use iprop_wire::{Due, Message};
use kdb_base::Blob;
use kdb_ports::Link;
use std::alloc::Global;

/// Makes a new connection.
fn dial<L: Link>(link: &mut L) -> Result<(), LinkHalt>
    ensures ok { OnOk result (L.wire link.new ≡ after_dial (L.wire link.old)) }
    ensures err { OnErr result (L.wire link.new ≡ L.wire link.old) }
    ensures halt { IfErr result (λ halt. halt ≡ LinkHalt.LinkFault) }
    ensures faults { Counts (L.faults link.old) (L.faults link.new) (result ≡ Err LinkHalt.LinkFault) }
{
    match link.dial() {
        Ok(()) => Ok(()),
        Err(_) => Err(LinkHalt::LinkFault),
    }
}

/// Says on a new connection who asks, and polls.
fn greet<L: Link>(
    alloc: Global,
    link: &mut L,
    hello: &Message,
    poll: &Message,
) -> Result<(), LinkHalt>
    requires hello { FitsFrames hello.now }
    requires poll { FitsFrames poll.now }
    ensures ok { OnOk result (L.wire link.new
        ≡ after_sent (after_sent (after_dial (L.wire link.old)) (message_text hello.now)) (message_text poll.now)) }
    ensures err { OnErr result ((L.wire link.new ≡ L.wire link.old) ⊎ ((L.wire link.new ≡ after_dial (L.wire link.old))
        ⊎ (L.wire link.new ≡ after_sent (after_dial (L.wire link.old)) (message_text hello.now)))) }
    ensures halt { IfErr result (λ halt. (halt ≡ LinkHalt.MemoryOut) ⊎ (halt ≡ LinkHalt.LinkFault)) }
    ensures faults { Counts (L.faults link.old) (L.faults link.new) (result ≡ Err LinkHalt.LinkFault) }
{
    dial(link)?;
    send_message(alloc, link, hello)?;
    send_message(alloc, link, poll)
}

/// The message of a replica that says who it is.
fn hello(alloc: Global, name: &[u8]) -> Result<Message, LinkHalt>
    ensures message { IfOk result (λ m. m ≡ Hello name.now) }
    ensures halt { IfErr result (λ halt. halt ≡ LinkHalt.MemoryOut) }
{
    match Blob::from_bytes(alloc, name) {
        Ok(name) => Ok(Message::Hello(name)),
        Err(_) => Err(LinkHalt::MemoryOut),
    }
}

/// Says on a new connection who asks, polls, and receives the reply, in an inbox to which nothing came yet.
pub fn poll_peer<L: Link>(
    alloc: Global,
    link: &mut L,
    inbox: &mut Inbox,
    name: &[u8],
    poll: &Message,
) -> Result<Arrival, LinkHalt>
    requires name { length name.now ≤ most_behind }
    requires poll { FitsFrames poll.now }
    requires inbox { inbox.old ≡ record { state = fresh; pending = []; received = 0 } }
    // The bytes that the next connection gives are judged.
    ensures arrives { (w : Wire) → L.wire link.old ≡ Some w → IfOk result
        (λ a. ArrivesOf Due.Reply a fresh (first_of w.to_come) (coming inbox.new.pending (L.wire link.new))) }
    ensures said { (w : Wire) → L.wire link.old ≡ Some w
        → OnOk result (sent_in (L.wire link.new) ≡ Some (greeting name.now poll.now ∷ w.sent)) }
    ensures front { (w : Wire) → L.wire link.old ≡ Some w
        → OnErr result (MaySay (greeting name.now poll.now) w.sent (sent_in (L.wire link.new))) }
    ensures later { (w : Wire) → L.wire link.old ≡ Some w
        → OnOk result (later_in (L.wire link.new) ≡ Some (behind_first w.to_come)) }
    ensures fresh { (message : Heard) → result ≡ Ok (Arrival.Came message) → inbox.new.state ≡ fresh }
    ensures received { (w : Wire) → L.wire link.old ≡ Some w
        → OnOk result (in_all inbox.new.received (L.wire link.new) ≡ Some (length (first_of w.to_come))) }
    ensures too_long { (w : Wire) → L.wire link.old ≡ Some w → result ≡ Err LinkHalt.InputTooLong
        → 4294967296 ≤ length (first_of w.to_come) }
    ensures unended { (w : Wire) → L.wire link.old ≡ Some w → result ≡ Err LinkHalt.InputTooLong
        → IsUnended Due.Reply (first_of w.to_come) (length (first_of w.to_come)) }
    ensures in_time { (w : Wire) → L.wire link.old ≡ Some w
        → OnOk result (IsUnended Due.Reply (first_of w.to_come) (length (first_of w.to_come)) → ⊥) }
    // No more is received than is needed.
    ensures reads { OnOk result (Needs Due.Reply fresh []
        (after_sent (after_sent (after_dial (L.wire link.old)) (message_text (Hello name.now))) (message_text poll.now))
        (L.wire link.new)) }
    ensures faults { Counts (L.faults link.old) (L.faults link.new) (result ≡ Err LinkHalt.LinkFault) }
{
    let hello = hello(alloc, name)?;
    greet(alloc, link, &hello, poll)?;
    inbox.next(link, Due::Reply)
}

/// Asks for a dump on the newest connection, and receives it, or the reply that comes in its place.
pub fn ask_dump<L: Link>(
    alloc: Global,
    link: &mut L,
    inbox: &mut Inbox,
) -> Result<Arrival, LinkHalt>
    requires { inbox.old.state ≡ fresh }
    ensures arrives { (rest : List ℕ) → coming inbox.old.pending (L.wire link.old) ≡ Some rest
        → IfOk result (λ a. ArrivesOf Due.Dump a fresh rest (coming inbox.new.pending (L.wire link.new))) }
    ensures said { OnOk result (sent_in (L.wire link.new) ≡ sent_in (after_sent (L.wire link.old) (message_text Ask))) }
    ensures part { OnErr result ((sent_in (L.wire link.new) ≡ sent_in (L.wire link.old))
        ⊎ (sent_in (L.wire link.new) ≡ sent_in (after_sent (L.wire link.old) (message_text Ask)))) }
    ensures later { later_in (L.wire link.new) ≡ later_in (L.wire link.old) }
    ensures too_long { (n : ℕ) → in_all inbox.old.received (L.wire link.old) ≡ Some n
        → result ≡ Err LinkHalt.InputTooLong → 4294967296 ≤ n }
    ensures unended { (rest : List ℕ) (n : ℕ) → coming inbox.old.pending (L.wire link.old) ≡ Some rest
        → in_all inbox.old.received (L.wire link.old) ≡ Some n
        → result ≡ Err LinkHalt.InputTooLong → IsUnended Due.Dump rest n }
    ensures in_time { (rest : List ℕ) (n : ℕ) → coming inbox.old.pending (L.wire link.old) ≡ Some rest
        → in_all inbox.old.received (L.wire link.old) ≡ Some n
        → OnOk result (IsUnended Due.Dump rest n → ⊥) }
    ensures reads { OnOk result ((L.wire link.new ≡ after_sent (L.wire link.old) (message_text Ask))
        ⊎ Needs Due.Dump fresh inbox.old.pending (after_sent (L.wire link.old) (message_text Ask)) (L.wire link.new)) }
    ensures faults { Counts (L.faults link.old) (L.faults link.new) (result ≡ Err LinkHalt.LinkFault) }
{
    send_message(alloc, link, &Message::Ask)?;
    inbox.next(link, Due::Dump)
}

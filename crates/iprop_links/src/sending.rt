//! Messages sent over a link.
ghost use Rattle.std.specs.Prelude.{◌≡◌, ◌⊎◌, Err, IfErr, OnErr, OnOk};
ghost use Rattle.iprop_links.specs.Arriving.{Counts};
ghost use Rattle.iprop_wire.specs.Messages.{FitsFrames, message_text};
ghost use Rattle.kdb_ports.specs.Links.{after_sent};

use crate::halts::LinkHalt;
use iprop_wire::{Message, write_message};
use kdb_ports::Link;
use std::alloc::Global;

/// Sends a message on the newest connection.
pub fn send_message<L: Link>(alloc: Global, link: &mut L, message: &Message) -> Result<(), LinkHalt>
    requires { FitsFrames message.now }
    ensures ok { OnOk result (L.wire link.new ≡ after_sent (L.wire link.old) (message_text message.now)) }
    ensures err { OnErr result (L.wire link.new ≡ L.wire link.old) }
    ensures memory { result ≡ Err LinkHalt.MemoryOut → link.new ≡ link.old }
    ensures halt { IfErr result (λ halt. (halt ≡ LinkHalt.MemoryOut) ⊎ (halt ≡ LinkHalt.LinkFault)) }
    ensures faults { Counts (L.faults link.old) (L.faults link.new) (result ≡ Err LinkHalt.LinkFault) }
{
    match write_message(alloc, message) {
        Ok(text) => match link.send(text.as_slice()) {
            Ok(()) => Ok(()),
            Err(_) => Err(LinkHalt::LinkFault),
        },
        Err(_) => Err(LinkHalt::MemoryOut),
    }
}

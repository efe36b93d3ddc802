//! What a primary says to a replica that has no database.

ghost use Rattle.std.specs.Prelude.{◌≡◌, ◌++◌, [], IfOk};
ghost use Rattle.iprop_wire.specs.Messages.{message_text};
ghost use Rattle.iprop_wire.specs.declared.messages.Message.TheVariants.{DumpText, Reply};
ghost use Rattle.princ_rows.specs.declared.replies.ReplyCode.TheVariants.{FullResyncNeeded};

use iprop_wire::{Message, write_message};
use kdb_base::{Blob, MemoryOut, Point};
use princ_rows::{Entries, PollReply, ReplyCode};
use std::alloc::Global;

/// The reply to a replica at this point that it has to load the whole database.
fn resync(alloc: Global, asked: Point) -> Result<Blob, MemoryOut>
    ensures { IfOk result (λ text. text ≡ message_text (Reply (record {
      code = FullResyncNeeded;
      asked = asked;
      updates = [];
    }))) }
{
    let none = Entries::from_vec(Vec::new(alloc));
    let reply = PollReply::new(ReplyCode::FullResyncNeeded, asked, none);
    write_message(alloc, &Message::Reply(reply))
}

/// The bytes that a primary gives on a connection where a replica at this point polls and then asks: that the whole
/// database has to be loaded, and this dump.
pub fn answer_with(alloc: Global, asked: Point, dump: Blob) -> Result<Blob, MemoryOut>
    ensures { IfOk result (λ text. text ≡ message_text (Reply (record {
      code = FullResyncNeeded;
      asked = asked;
      updates = [];
    })) ++ message_text (DumpText dump)) }
{
    let mut text = resync(alloc, asked)?.into_vec();
    let frames = write_message(alloc, &Message::DumpText(dump))?;
    text.extend_from_slice(frames.as_slice())?;
    Ok(Blob::from_vec(text))
}

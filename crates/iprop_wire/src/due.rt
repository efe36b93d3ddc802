//! What a replica waits for.

ghost use Rattle.std.specs.Prelude.{◌≡◌};
ghost use Rattle.iprop_wire.specs.Decoding.{brings};
ghost use Rattle.iprop_wire.specs.Due.{is_due_kind, is_due_message, wants_dump};

use crate::messages::{Message, PIECE, REPLY, TOTAL};
use princ_rows::ReplyCode;

/// What a replica waits for.
#[derive(Clone, Copy, Debug, PartialEq, Eq)]
pub enum Due {
    /// The reply to a poll.
    Reply,
    /// A dump, or in its place a reply, which has no updates.
    Dump,
}

/// Whether a dump is due.
pub(crate) fn wants_dump(due: Due) -> bool
    ensures { result ≡ wants_dump due }
{
    match due {
        Due::Reply => false,
        Due::Dump => true,
    }
}

/// Whether a reply with this code may have updates.
fn brings(code: ReplyCode) -> bool
    ensures { result ≡ brings code }
{
    match code {
        ReplyCode::UpdateOk => true,
        ReplyCode::FullResyncNeeded => false,
        ReplyCode::Busy => false,
        ReplyCode::Nil => false,
        ReplyCode::PermDenied => false,
    }
}

/// Whether a frame of this kind begins what is due.
pub(crate) fn is_due_kind(due: Due, kind: u8) -> bool
    ensures { result ≡ is_due_kind due kind }
{
    kind == REPLY || wants_dump(due) && (kind == PIECE || kind == TOTAL)
}

/// Whether this message is due.
pub(crate) fn is_due_message(due: Due, message: &Message) -> bool
    ensures { result ≡ is_due_message due message.now }
{
    match message {
        Message::Hello(_) => false,
        Message::Poll(_) => false,
        Message::Ask => false,
        Message::Reply(reply) => !(wants_dump(due) && brings(reply.code())),
        Message::DumpText(_) => wants_dump(due),
    }
}

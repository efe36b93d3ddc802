//! What a replica makes of what comes on its connection.
ghost use Rattle.std.specs.Prelude.{◌≡◌};
ghost use Rattle.kprop_rounds.specs.Hearing.{dump_in, heard, refusal_by, refusal_of, reply_in, then_dump, then_reply};

use crate::words::RoundWord;
use iprop_links::Arrival;
use iprop_wire::Message;
use kdb_base::Blob;
use princ_rows::{PollReply, ReplyCode};

/// The message, where one came.
fn heard(arrival: Arrival) -> Result<Message, RoundWord>
    ensures { result ≡ heard arrival }
{
    match arrival {
        Arrival::Came(message) => Ok(message),
        Arrival::Cut => Err(RoundWord::Cut),
        Arrival::Bad => Err(RoundWord::BadFrame),
    }
}

fn reply_in(message: Message) -> Result<PollReply, RoundWord>
    ensures { result ≡ reply_in message }
{
    match message {
        Message::Reply(reply) => Ok(reply),
        Message::Hello(_) => Err(RoundWord::BadFrame),
        Message::Poll(_) => Err(RoundWord::BadFrame),
        Message::Ask => Err(RoundWord::BadFrame),
        Message::DumpText(_) => Err(RoundWord::BadFrame),
    }
}

/// The reply to a poll, where one came.
pub(crate) fn heard_reply(arrival: Arrival) -> Result<PollReply, RoundWord>
    ensures { result ≡ then_reply (heard arrival) }
{
    match heard(arrival) {
        Ok(message) => reply_in(message),
        Err(word) => Err(word),
    }
}

/// Why no dump is given.
fn refusal_by(code: ReplyCode) -> RoundWord
    ensures { result ≡ refusal_by code }
{
    match code {
        ReplyCode::Busy => RoundWord::Busy,
        ReplyCode::PermDenied => RoundWord::Denied,
        ReplyCode::UpdateOk => RoundWord::BadFrame,
        ReplyCode::FullResyncNeeded => RoundWord::BadFrame,
        ReplyCode::Nil => RoundWord::BadFrame,
    }
}

/// Why no dump is given, by a reply that names no point.
fn refusal_of(reply: &PollReply) -> RoundWord
    ensures { result ≡ refusal_of reply.now }
{
    let asked = reply.asked();
    if asked.sno == 0 && (asked.time.secs() == 0 && asked.time.usecs() == 0) {
        return refusal_by(reply.code());
    }
    RoundWord::BadFrame
}

fn dump_in(message: Message) -> Result<Blob, RoundWord>
    ensures { result ≡ dump_in message }
{
    match message {
        Message::DumpText(text) => Ok(text),
        Message::Reply(reply) => Err(refusal_of(&reply)),
        Message::Hello(_) => Err(RoundWord::BadFrame),
        Message::Poll(_) => Err(RoundWord::BadFrame),
        Message::Ask => Err(RoundWord::BadFrame),
    }
}

/// The text of the dump that was asked for, where one came.
pub(crate) fn heard_dump(arrival: Arrival) -> Result<Blob, RoundWord>
    ensures { result ≡ then_dump (heard arrival) }
{
    match heard(arrival) {
        Ok(message) => dump_in(message),
        Err(word) => Err(word),
    }
}

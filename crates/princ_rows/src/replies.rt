//! What a primary answers a replica that polls the log.

ghost use Rattle.std.specs.Prelude.{◌≡◌};
ghost use Rattle.std.specs.List.{All};
ghost use Rattle.princ_rows.specs.Entries.{IsSent};
ghost use Rattle.princ_rows.specs.Replies.{number_of, code_of, MayCome};

use crate::entries::{Entries, Entry};
use kdb_base::Point;
use std::marker::Model;

/// The code of a reply, as MIT's iprop has them.
#[derive(Clone, Copy, Debug, PartialEq, Eq)]
pub enum ReplyCode {
    /// The updates from the point that was asked for, number 0.
    UpdateOk,
    /// The log does not hold that point, number 2: the whole database has to be sent.
    FullResyncNeeded,
    /// Not now, number 3.
    Busy,
    /// Nothing came after that point, number 4.
    Nil,
    /// Who asked may not, number 5.
    PermDenied,
}

impl ReplyCode {
    /// The number on the wire.
    pub fn number(self) -> u8
        ensures { result ≡ number_of self }
    {
        match self {
            ReplyCode::UpdateOk => 0,
            ReplyCode::FullResyncNeeded => 2,
            ReplyCode::Busy => 3,
            ReplyCode::Nil => 4,
            ReplyCode::PermDenied => 5,
        }
    }

    /// The code of this number, if there is one.
    pub fn from_number(number: u8) -> Option<ReplyCode>
        ensures { result ≡ code_of number }
    {
        match number {
            0 => Some(ReplyCode::UpdateOk),
            2 => Some(ReplyCode::FullResyncNeeded),
            3 => Some(ReplyCode::Busy),
            4 => Some(ReplyCode::Nil),
            5 => Some(ReplyCode::PermDenied),
            _ => None,
        }
    }
}

/// The reply to a poll. Only `UpdateOk` brings updates, and each has a spelling on the wire.
#[derive(Debug, Drop)]
pub struct PollReply {
    code: ReplyCode,
    asked: Point,
    updates: Entries,
}

impl Model for PollReply {
    ghost use Rattle.princ_rows.specs.Replies.{Reply, IsReply};

    ghost Value = { Reply };

    ghost view = { λ r. record { code = r.code; asked = r.asked; updates = r.updates } };

    ghost invariant = { λ r. IsReply r.code r.updates };
}

impl PollReply {
    /// The reply with this code and these updates to a poll from this point.
    pub fn new(code: ReplyCode, asked: Point, updates: Entries) -> PollReply
        requires may_come { MayCome code updates }
        requires sent { All IsSent updates }
        ensures { result ≡ record { code = code; asked = asked; updates = updates } }
    {
        PollReply {
            code,
            asked,
            updates,
        }
    }

    pub fn code(&self) -> ReplyCode
        ensures { result ≡ self.now.code }
    {
        self.code
    }

    /// The point that the replica has reached.
    pub fn asked(&self) -> Point
        ensures { result ≡ self.now.asked }
    {
        self.asked
    }

    /// The entries behind that point, in their order.
    pub fn updates(&self) -> &[Entry]
        ensures value { result.now ≡ self.now.updates }
        ensures may_come { MayCome self.now.code result.now }
        ensures sent { All IsSent result.now }
    {
        self.updates.as_slice()
    }

    /// The updates, without a copy.
    pub fn into_updates(self) -> Entries
        ensures value { result ≡ self.updates }
        ensures may_come { MayCome self.code result }
        ensures sent { All IsSent result }
    {
        self.updates
    }
}

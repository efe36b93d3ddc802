ghost use Rattle.std.specs.Prelude.{◌≡◌};
ghost use Rattle.kdb_base.specs.Outcomes.{code_of, field_word};

use std::alloc::{AllocError, AllocFailed};
use thiserror::Error;

/// Memory was wanted and not given. It is the one answer that no other cause explains.
#[derive(Clone, Copy, Debug, PartialEq, Eq, Error)]
#[error("out of memory")]
pub struct MemoryOut;

impl From<AllocError> for MemoryOut {
    fn from(_: AllocError) -> MemoryOut {
        MemoryOut
    }
}

impl<T: Drop> From<AllocFailed<T>> for MemoryOut {
    fn from(_: AllocFailed<T>) -> MemoryOut {
        MemoryOut
    }
}

/// The value of a line or a word that is unreadable or out of its range.
#[derive(Clone, Copy, Debug, PartialEq, Eq)]
pub enum Field {
    Expire,
    PwExpire,
    MaxLife,
    MaxRenewLife,
    MinLife,
    MinLength,
    MinClasses,
    History,
    KeepKvno,
    Enctypes,
    Policy,
    UlogSize,
    Realm,
    Mkvno,
    Time,
    Glob,
    Key,
    Value,
    Seed,
    Count,
    Kvno,
}

impl Field {
    /// The word by which a refusal names it.
    #[tactic(auto, unfolding(crate::specs::Outcomes::field_word))]
    pub fn word(self) -> &'static str
        ensures { result.now ≡ field_word self }
    {
        match self {
            Field::Expire => "expire",
            Field::PwExpire => "pwexpire",
            Field::MaxLife => "maxlife",
            Field::MaxRenewLife => "maxrenewlife",
            Field::MinLife => "minlife",
            Field::MinLength => "minlength",
            Field::MinClasses => "minclasses",
            Field::History => "history",
            Field::KeepKvno => "keepkvno",
            Field::Enctypes => "enctypes",
            Field::Policy => "policy",
            Field::UlogSize => "ulogsize",
            Field::Realm => "realm",
            Field::Mkvno => "mkvno",
            Field::Time => "time",
            Field::Glob => "glob",
            Field::Key => "key",
            Field::Value => "value",
            Field::Seed => "seed",
            Field::Count => "count",
            Field::Kvno => "kvno",
        }
    }
}

/// Why a command, a line or an opening was refused. The state is then as it was. The number behind each cause
/// is the one that its reply has.
#[derive(Clone, Copy, Debug, PartialEq, Eq)]
pub enum Refusal {
    /// 1: the line or the words are not of the grammar.
    BadLine,
    /// 2: a name breaks its grammar at this byte of its word, or has another realm there.
    BadName { offset: u32 },
    /// 3: the name or the policy to be added is there.
    Duplicate,
    /// 4: the named principal is not there.
    UnknownPrincipal,
    /// 5: the policy that is named, or forced by the access list, is not there.
    UnknownPolicy,
    /// 6: so many principals name the policy that is to be deleted.
    PolicyInUse { count: u32 },
    /// 7: this line of the access list denies the operation, or none matches it where the line is 0.
    Denied { line: u32 },
    /// 8: a change or an extraction names the master key's or the history key's principal.
    Protected,
    /// 9: the password is shorter than its policy's least length.
    PassTooShort,
    /// 10: the password has fewer classes of characters than its policy's least.
    PassClasses,
    /// 11: the password was used before.
    PassReused,
    /// 12: the password may not be changed before this moment, in seconds since 1970.
    PassTooSoon { until: u32 },
    /// 13: a value is unreadable or out of its range.
    BadValue { field: Field },
    /// 14: the record would have so many bytes, which is more than a row may have.
    RecordTooLarge { size: u64 },
    /// 15: there are as many versions of the master key as there may be, this many, or the greatest version is
    /// the greatest there is.
    TooManyMasters { limit: u32 },
    /// 16: no version of the stash is listed, of which this is the first, or the named version is not.
    UnknownMaster { version: u32 },
    /// 17: no version of the master key would be active.
    NoActiveMaster,
    /// 18: there is no stash, or it has no entry.
    StashMissing,
    /// 19: the key of the stash does not open what is kept.
    StashWrong,
    /// 20: no control slot is whole and open.
    NotADatabase,
    /// 21: a database is there already.
    AlreadyThere,
    /// 22: this place of a file breaks the file's grammar.
    Damaged { file: u8, place: u64 },
    /// 23: the log is to start anew, and the time of the last change is the greatest there is.
    TimeEnd,
    /// 24: this line of a dump breaks its grammar or is not sound.
    DumpBad { line: u32 },
    /// 25: as many dumps are under way as may be.
    Busy,
    /// 26: an earlier call failed by the disk.
    Closed,
    /// 27: a line has more bytes than a line may have.
    LineTooLong,
    /// 28: the record would have more keys than a record may have, or its greatest version is the greatest there is.
    KeysFull,
    /// 29: a row more than this number would be added.
    RowsFull { limit: u32 },
    /// 30: a string attribute more than this number would be added.
    StringsFull { limit: u32 },
    /// 31: the principal has no string attribute of this key.
    UnknownString,
    /// 32: the principal's keys are locked down.
    LockedDown,
    /// 33: this place of a keytab breaks its grammar, or is past its greatest length.
    BadKeytab { place: u64 },
    /// 34: the keytab has no entry of this name, or of this name and version.
    UnknownEntry,
}

/// How a run ends.
#[derive(Clone, Copy, Debug, PartialEq, Eq)]
pub enum Status {
    /// The input was read to its end, and nothing was refused.
    Done,
    /// A refusal was written, and the input was read to its end.
    Refused,
    MemoryOut,
    /// The source or the entropy failed.
    ReadFault,
    /// The sink failed.
    WriteFault,
    DiskFault,
    LinkFault,
    /// 4294967296 bytes were taken, and no end had come.
    InputTooLong,
}

impl Status {
    /// The exit status of a program that ends so.
    pub fn code(self) -> u8
        ensures { result ≡ code_of self }
    {
        match self {
            Status::Done => 0,
            Status::Refused => 1,
            Status::MemoryOut => 70,
            Status::ReadFault => 71,
            Status::WriteFault => 72,
            Status::DiskFault => 73,
            Status::LinkFault => 74,
            Status::InputTooLong => 75,
        }
    }
}

/// How a connection of commands or of polls ends.
#[derive(Clone, Copy, Debug, PartialEq, Eq)]
pub enum Ended {
    /// The end came after a whole line or message.
    Finished,
    /// The end came inside a line or a message, of which nothing was performed.
    Cut,
    /// The first line or message names no client.
    BadClient,
    /// The bytes of a connection of polls break the grammar.
    BadFrame,
    /// 4294967296 bytes were taken, and no end had come.
    TooLong,
    ReadFault,
    WriteFault,
    DiskFault,
    MemoryOut,
}

/// What ends a call of the database early: want of memory or the disk.
#[derive(Clone, Copy, Debug, PartialEq, Eq)]
pub enum Halt {
    MemoryOut,
    DiskFault,
}

/// A refusal, or an early end.
#[derive(Clone, Copy, Debug, PartialEq, Eq)]
pub enum Stop {
    Refused(Refusal),
    Halt(Halt),
}

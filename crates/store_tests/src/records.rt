//! The records that the tests keep, as the published format spells them.
ghost use Rattle.std.specs.Prelude.{IfOk, Some};
ghost use Rattle.princ_name.specs.Printed.{IsPrinted};
ghost use Rattle.princ_record.specs.RowLimits.{IsRow};
ghost use Rattle.princ_rows.specs.Entries.{IsOp};

use kdb_base::{Blob, MemoryOut};
use policy_rules::is_policy_name;
use princ_name::is_printed;
use princ_record::{Princ, decode, decode_policy, is_row};
use princ_rows::Op;
use std::alloc::Global;
use std::test::Fail;

/// A record: its name, how many versions of keys it has, the enctype and the wrapped bytes of each key of a
/// version, their salt, which is special unless it is empty, and its tagged list.
#[derive(Clone, Copy)]
pub(crate) struct Record {
    pub name: &'static [u8],
    pub versions: u16,
    pub etypes: &'static [(u16, &'static [u8])],
    pub salt: &'static [u8],
    pub tags: &'static [u8],
}

const PAIR: [(u16, &[u8]); 2] = [(18, &[7; 62]), (17, &[7; 46])];

const SINGLE: [(u16, &[u8]); 1] = [(18, &[7; 62])];

/// A tagged list: who changed the record and when (0x6553f100 is 1700000000), and the master key's version.
const KEYLESS: &[u8] =
    b"\0\x02\0\x02\0\x1c\0\xf1\x53\x65admin/local@EXAMPLE.ORG\0\0\x08\0\x02\x01\0";

/// With the last password change before them.
const KEYED: &[u8] = b"\0\x03\0\x01\0\x04\0\xf1\x53\x65\
\0\x02\0\x1c\0\xf1\x53\x65admin/local@EXAMPLE.ORG\0\0\x08\0\x02\x01\0";

/// With the activation of the first master key and no auxiliary keys behind them.
const MASTER: &[u8] = b"\0\x05\0\x01\0\x04\0\xf1\x53\x65\
\0\x02\0\x1c\0\xf1\x53\x65admin/local@EXAMPLE.ORG\0\0\x08\0\x02\x01\0\
\0\x09\0\x06\x01\0\0\xf1\x53\x65\0\x0a\0\0";

/// With the string attribute `color` behind those of a record without keys.
const COLORED: &[u8] =
    b"\0\x03\0\x02\0\x1c\0\xf1\x53\x65admin/local@EXAMPLE.ORG\0\0\x08\0\x02\x01\0\
\0\x0b\0\x0bcolor\0blue\0";

pub(crate) const KM: Record = Record {
    name: b"K/M@EXAMPLE.ORG",
    versions: 1,
    etypes: &SINGLE,
    salt: b"",
    tags: MASTER,
};

pub(crate) const HISTORY: Record = Record {
    name: b"kadmin/history@EXAMPLE.ORG",
    tags: KEYED,
    ..KM
};

pub(crate) const KRBTGT: Record = Record {
    name: b"krbtgt/EXAMPLE.ORG@EXAMPLE.ORG",
    etypes: &PAIR,
    ..HISTORY
};

pub(crate) const A: Record = Record {
    name: b"a@EXAMPLE.ORG",
    versions: 0,
    etypes: &PAIR,
    salt: b"",
    tags: KEYLESS,
};

pub(crate) const B: Record = Record {
    name: b"b@EXAMPLE.ORG",
    ..A
};

pub(crate) const C: Record = Record {
    name: b"c@EXAMPLE.ORG",
    ..A
};

pub(crate) const D: Record = Record {
    name: b"d@EXAMPLE.ORG",
    ..A
};

pub(crate) const ALICE: Record = Record {
    name: b"alice@EXAMPLE.ORG",
    ..A
};

pub(crate) const BOB: Record = Record {
    name: b"bob@EXAMPLE.ORG",
    ..A
};

pub(crate) const CAROL: Record = Record {
    name: b"carol@EXAMPLE.ORG",
    ..A
};

pub(crate) const DAVE: Record = Record {
    name: b"dave@EXAMPLE.ORG",
    ..A
};

pub(crate) const ZOE: Record = Record {
    name: b"zoe@EXAMPLE.ORG",
    ..A
};

/// `bob` with a string attribute.
pub(crate) const COLORED_BOB: Record = Record {
    tags: COLORED,
    ..BOB
};

/// `a` with one version of its keys.
pub(crate) const KEYED_A: Record = Record {
    versions: 1,
    tags: KEYED,
    ..A
};

/// `b` with 16 versions.
pub(crate) const KEYED_B: Record = Record {
    versions: 16,
    tags: KEYED,
    ..B
};

/// The spelling of a policy: its name, no lives, passwords of eight bytes of three classes, and a history of two.
pub(crate) const POLICY: &[u8] = b"\0\x03std\0\0\0\0\0\0\0\0\0\x08\0\x03\0\x02";

/// A change of the rows.
#[derive(Clone, Copy)]
pub(crate) enum Change {
    Put(Record),
    /// The record, with so many versions of its keys.
    Keep(Record, u16),
    /// The old name, and the record that then stands.
    Rename(&'static [u8], Record),
    Drop(&'static [u8]),
    /// The spelling of a policy.
    PutPolicy(&'static [u8]),
    DropPolicy(&'static [u8]),
}

// ---- spellings

// The bytes, with their number in two bytes before them.
fn push_counted(out: &mut Vec<u8>, bytes: &[u8]) -> Result<(), Fail> {
    let length = match u16::try_from(bytes.len()) {
        Ok(length) => length.to_be_bytes(),
        Err(_) => [0xff, 0xff],
    };
    out.extend_from_slice(&length)?;
    out.extend_from_slice(bytes)?;
    Ok(())
}

// A key of this version.
fn push_key(
    out: &mut Vec<u8>,
    version: u16,
    etype: u16,
    salt: &[u8],
    wrapped: &[u8],
) -> Result<(), Fail> {
    let kind = if salt.is_empty() { 0 } else { 4u16 };
    for number in [version, etype, kind] {
        out.extend_from_slice(&number.to_be_bytes())?;
    }
    push_counted(out, salt)?;
    push_counted(out, wrapped)
}

// The keys, the newest first.
fn push_keys(out: &mut Vec<u8>, record: &Record) -> Result<(), Fail> {
    let each = if record.etypes.len() == 1 { 1u16 } else { 2 };
    let count = record.versions.saturating_mul(each);
    out.extend_from_slice(&count.to_be_bytes())?;
    for older in 0..record.versions {
        let version = record.versions - older;
        for (etype, wrapped) in record.etypes {
            push_key(out, version, *etype, record.salt, wrapped)?;
        }
    }
    Ok(())
}

/// The bytes of the record.
pub(crate) fn row(alloc: Global, record: &Record) -> Result<Vec<u8>, Fail> {
    let mut out = Vec::new(alloc);
    push_counted(&mut out, record.name)?;
    // attributes, lives and expirations
    out.extend_from_slice(&[0; 20])?;
    out.extend_from_slice(record.tags)?;
    push_keys(&mut out, record)?;
    // no policy, no remembered keys
    out.extend_from_slice(&[0; 4])?;
    Ok(out)
}

/// So many bytes with this record: what stands before the row's length, that length, the row, and zeros.
pub(crate) fn padded(
    alloc: Global,
    front: &[u8],
    record: &Record,
    length: usize,
) -> Result<Vec<u8>, Fail> {
    let row = row(alloc, record)?;
    let mut out = front.to_vec(alloc)?;
    push_counted(&mut out, &row)?;
    out.resize(length, 0)?;
    Ok(out)
}

// ---- values

/// The record.
pub(crate) fn princ(alloc: Global, record: &Record) -> Result<Princ, Fail>
    ensures { IfOk result IsRow }
{
    let bytes = row(alloc, record)?;
    let princ = decode(alloc, &bytes)?;
    if !is_row(&princ) {
        return Err(Fail::from("a row"));
    }
    Ok(princ)
}

/// Drops the change by a call of the library, so that no caller is proved with all that it may own.
pub(crate) fn let_go_of_op(op: Op) {
    let held: Result<Op, MemoryOut> = Ok(op);
    let _ = held.err();
}

// The name.
#[tactic(auto, using(princ_name::specs::PrintedLaws::test_printed))]
fn printed(alloc: Global, bytes: &[u8]) -> Result<Blob, Fail>
    ensures { IfOk result IsPrinted }
{
    if !is_printed(bytes) {
        return Err(Fail::from("a printed name"));
    }
    Ok(Blob::from_bytes(alloc, bytes)?)
}

// The policy of this name taken away.
fn policy_drop(alloc: Global, name: &[u8]) -> Result<Op, Fail>
    ensures { IfOk result (λ op. IsOp (Some op)) }
{
    if !is_policy_name(name) {
        return Err(Fail::from("a name of a policy"));
    }
    Ok(Op::DropPolicy(Blob::from_bytes(alloc, name)?))
}

// The record put with so many versions of its keys.
fn keep_op(alloc: Global, record: &Record, versions: u16) -> Result<Op, Fail>
    ensures { IfOk result (λ op. IsOp (Some op)) }
{
    let kept = Record {
        versions,
        ..*record
    };
    Ok(Op::PutPrinc(princ(alloc, &kept)?))
}

/// The change.
pub(crate) fn op_of(alloc: Global, change: &Change) -> Result<Op, Fail>
    ensures { IfOk result (λ op. IsOp (Some op)) }
{
    match change {
        Change::Put(record) => Ok(Op::PutPrinc(princ(alloc, record)?)),
        Change::Keep(record, versions) => keep_op(alloc, record, *versions),
        Change::Rename(old, record) => {
            let old = printed(alloc, old)?;
            Ok(Op::Rename(old, princ(alloc, record)?))
        }
        Change::Drop(name) => Ok(Op::DropPrinc(printed(alloc, name)?)),
        Change::PutPolicy(bytes) => Ok(Op::PutPolicy(decode_policy(alloc, bytes)?)),
        Change::DropPolicy(name) => policy_drop(alloc, name),
    }
}

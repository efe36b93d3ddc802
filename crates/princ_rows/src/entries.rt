ghost use Rattle.std.specs.Prelude.{◌≡◌, ◌++◌, ◌+◌, ◌<◌, ◌≤◌, length, OnOk};
ghost use Rattle.kdb_base.specs.Limits.{longest_row};
ghost use Rattle.kdb_format.specs.Answers.{Gives};
ghost use Rattle.kdb_format.specs.Spellings.{counted};
ghost use Rattle.princ_rows.specs.Entries.{kind_of, key_of, row_of, IsOp, op_of, op_text, entry_len, base_at};
ghost use Rattle.princ_rows.specs.Entries.{put_at, drop_at, rename_at, put_policy_at, drop_policy_at};
ghost use Rattle.princ_rows.specs.Entries.{logged_at, logged, IsLogged, sent_at, sent, IsSent};
ghost use Rattle.princ_rows.specs.EntryLaws.{logged_field, sent_field};
ghost use Rattle.princ_record.specs.Policies.{policy};
ghost use Rattle.princ_record.specs.Princs.{princ};

use kdb_base::{Blob, MemoryOut, Point};
use kdb_format::moments::{push_point, read_point};
use kdb_format::writing::{push_counted, push_u8, push_u16, push_u32};
use kdb_format::{Format, FormatFault, Reader};
use policy_rules::{Policy, is_policy_name};
use princ_name::is_printed;
use princ_record::{PolicyRowFormat, Princ, RowFormat, encoded_len, policy_len};
use std::alloc::Global;
use std::marker::Model;

/// A change of the rows. A put replaces the row of its name or adds it, a drop takes the row away where
/// it is there, and a rename takes the old name's row away where it is there and puts the row.
#[derive(Debug, Drop, PartialEq, Eq)]
pub enum Op {
    PutPrinc(Princ),
    /// The printed name.
    DropPrinc(Blob),
    /// The old printed name, and the principal under its new one.
    Rename(Blob, Princ),
    PutPolicy(Policy),
    /// The policy's name.
    DropPolicy(Blob),
}

/// An entry of the log: the point after it, and the change. None is the base marker.
#[derive(Debug, Drop, PartialEq, Eq)]
pub struct Entry {
    pub point: Point,
    pub op: Option<Op>,
}

/// An entry in the log, with the number of the unit that it changes: 0 where it changes none.
#[derive(Debug, Drop, PartialEq, Eq)]
pub struct Logged {
    pub entry: Entry,
    pub cell: u32,
}

#[tactic(auto, unfolding(kdb_format::specs::Readings::checked))]
fn read_put(alloc: Global, reader: &mut Reader) -> Result<Option<Op>, FormatFault>
    ensures { Gives result reader.new (put_at reader.old) }
{
    let key = reader.counted()?;
    let princ = RowFormat::read(alloc, reader)?;
    if princ.name.as_slice() != key {
        return Err(FormatFault::Malformed);
    }
    Ok(Some(Op::PutPrinc(princ)))
}

#[tactic(auto, unfolding(kdb_format::specs::Readings::checked))]
fn read_put_policy(alloc: Global, reader: &mut Reader) -> Result<Option<Op>, FormatFault>
    ensures { Gives result reader.new (put_policy_at reader.old) }
{
    let key = reader.counted()?;
    let policy = PolicyRowFormat::read(alloc, reader)?;
    if policy.name() != key {
        return Err(FormatFault::Malformed);
    }
    Ok(Some(Op::PutPolicy(policy)))
}

#[tactic(auto, unfolding(kdb_format::specs::Readings::checked))]
fn read_rename(alloc: Global, reader: &mut Reader) -> Result<Option<Op>, FormatFault>
    ensures { Gives result reader.new (rename_at reader.old) }
{
    let old = reader.counted()?;
    if !is_printed(old) {
        return Err(FormatFault::Malformed);
    }
    let princ = RowFormat::read(alloc, reader)?;
    let old = Blob::from_bytes(alloc, old)?;
    Ok(Some(Op::Rename(old, princ)))
}

#[tactic(auto, unfolding(kdb_format::specs::Readings::checked))]
fn read_drop(alloc: Global, reader: &mut Reader) -> Result<Option<Op>, FormatFault>
    ensures { Gives result reader.new (drop_at reader.old) }
{
    let name = reader.counted()?;
    if !is_printed(name) {
        return Err(FormatFault::Malformed);
    }
    reader.zeros(2)?;
    let name = Blob::from_bytes(alloc, name)?;
    Ok(Some(Op::DropPrinc(name)))
}

#[tactic(auto, unfolding(kdb_format::specs::Readings::checked))]
fn read_drop_policy(alloc: Global, reader: &mut Reader) -> Result<Option<Op>, FormatFault>
    ensures { Gives result reader.new (drop_policy_at reader.old) }
{
    let name = reader.counted()?;
    if !is_policy_name(name) {
        return Err(FormatFault::Malformed);
    }
    reader.zeros(2)?;
    let name = Blob::from_bytes(alloc, name)?;
    Ok(Some(Op::DropPolicy(name)))
}

fn read_base(reader: &mut Reader) -> Result<Option<Op>, FormatFault>
    ensures { Gives result reader.new (base_at reader.old) }
{
    reader.zeros(4)?;
    Ok(None)
}

/// Reads what stands behind the kind.
#[tactic(auto, unfolding(crate::specs::Entries::op_of))]
fn read_op(alloc: Global, reader: &mut Reader, kind: u8) -> Result<Option<Op>, FormatFault>
    ensures { Gives result reader.new (op_of kind reader.old) }
{
    match kind {
        0 => read_base(reader),
        1 => read_put(alloc, reader),
        2 => read_drop(alloc, reader),
        3 => read_rename(alloc, reader),
        4 => read_put_policy(alloc, reader),
        5 => read_drop_policy(alloc, reader),
        _ => Err(FormatFault::Malformed),
    }
}

/// The number of the kind: 0 for the base marker, 1 put, 2 drop, 3 rename, 4 put a policy, 5 drop a
/// policy.
pub fn kind_of(op: &Option<Op>) -> u8
    ensures { result ≡ kind_of op.now }
{
    match op {
        None => 0,
        Some(Op::PutPrinc(_)) => 1,
        Some(Op::DropPrinc(_)) => 2,
        Some(Op::Rename(_, _)) => 3,
        Some(Op::PutPolicy(_)) => 4,
        Some(Op::DropPolicy(_)) => 5,
    }
}

/// The key: the printed name, the old one of a rename, or the policy's name. Empty at the base marker.
#[tactic(auto, unfolding(crate::specs::Entries::key_of))]
pub fn key_of(op: &Option<Op>) -> &[u8]
    ensures { result.now ≡ key_of op.now }
{
    match op {
        None => &[],
        Some(Op::PutPrinc(princ)) => princ.name.as_slice(),
        Some(Op::DropPrinc(name)) => name.as_slice(),
        Some(Op::Rename(old, _)) => old.as_slice(),
        Some(Op::PutPolicy(policy)) => policy.name(),
        Some(Op::DropPolicy(name)) => name.as_slice(),
    }
}

#[tactic(auto, unfolding(crate::specs::Entries::row_of))]
fn push_op_row(out: &mut Vec<u8>, op: &Option<Op>) -> Result<(), MemoryOut>
    requires { IsOp op.now }
    ensures { OnOk result (out.new.items ≡ out.old.items ++ counted (row_of op.now)) }
{
    match op {
        Some(Op::PutPrinc(princ)) => RowFormat::write(out, princ),
        Some(Op::Rename(_, princ)) => RowFormat::write(out, princ),
        Some(Op::PutPolicy(policy)) => PolicyRowFormat::write(out, policy),
        _ => push_counted(out, &[]),
    }
}

#[tactic(auto, unfolding(crate::specs::Entries::row_of))]
fn row_len(op: &Option<Op>) -> usize
    requires { IsOp op.now }
    ensures value { result ≡ length (row_of op.now) }
    ensures small { result ≤ longest_row }
{
    match op {
        Some(Op::PutPrinc(princ)) => encoded_len(princ),
        Some(Op::Rename(_, princ)) => encoded_len(princ),
        Some(Op::PutPolicy(policy)) => policy_len(policy),
        _ => 0,
    }
}

#[tactic(auto, unfolding(crate::specs::Entries::op_text))]
fn push_op(out: &mut Vec<u8>, op: &Option<Op>) -> Result<(), MemoryOut>
    requires { IsOp op.now }
    ensures { OnOk result (out.new.items ≡ out.old.items ++ op_text op.now) }
{
    push_counted(out, key_of(op))?;
    push_op_row(out, op)?;
    Ok(())
}

/// How many bytes an entry of this change has in the log.
pub fn entry_len(op: &Option<Op>) -> usize
    requires { IsOp op.now }
    ensures { result ≡ entry_len op.now }
{
    21 + key_of(op).len() + row_len(op)
}

/// Appends an entry as it stands in the log, with the number of the unit that it changes.
#[tactic(auto, unfolding(crate::specs::Entries::logged))]
pub fn push_logged(out: &mut Vec<u8>, entry: &Entry, cell: u32) -> Result<(), MemoryOut>
    requires { IsOp entry.now.op }
    ensures { OnOk result (out.new.items ≡ out.old.items ++ logged (record { entry = entry.now; cell = cell })) }
{
    push_point(out, entry.point)?;
    push_u8(out, kind_of(&entry.op))?;
    push_u32(out, cell)?;
    push_op(out, &entry.op)?;
    Ok(())
}

/// The format of entries in the log: the point, the kind, the number of the unit that the entry changes in
/// four bytes, the counted key and the counted row.
pub enum LoggedFormat {}

impl Format for LoggedFormat {
    type Value = Logged;

    ghost reading = { logged_at };

    ghost spelling = { logged };

    ghost fits = { IsLogged };

    ghost is_field = { logged_field };

    #[tactic(auto, unfolding(crate::specs::Entries::logged_at))]
    fn read(alloc: Global, reader: &mut Reader) -> Result<Logged, FormatFault> {
        let point = read_point(reader)?;
        let kind = reader.u8()?;
        let cell = reader.u32()?;
        let op = read_op(alloc, reader, kind)?;
        Ok(Logged {
            entry: Entry { point, op },
            cell,
        })
    }

    fn write(out: &mut Vec<u8>, value: &Logged) -> Result<(), MemoryOut> {
        push_logged(out, &value.entry, value.cell)
    }
}

/// The format of entries on the wire: as in the log, without the four bytes of a unit, and no base marker.
pub enum SentFormat {}

impl Format for SentFormat {
    type Value = Entry;

    ghost reading = { sent_at };

    ghost spelling = { sent };

    ghost fits = { IsSent };

    ghost is_field = { sent_field };

    #[tactic(auto, unfolding(crate::specs::Entries::sent_at, kdb_format::specs::Readings::checked))]
    fn read(alloc: Global, reader: &mut Reader) -> Result<Entry, FormatFault> {
        let point = read_point(reader)?;
        let kind = reader.u8()?;
        if kind == 0 {
            return Err(FormatFault::Malformed);
        }
        let op = read_op(alloc, reader, kind)?;
        Ok(Entry { point, op })
    }

    #[tactic(auto, unfolding(crate::specs::Entries::sent))]
    fn write(out: &mut Vec<u8>, value: &Entry) -> Result<(), MemoryOut> {
        push_point(out, value.point)?;
        push_u8(out, kind_of(&value.op))?;
        push_op(out, &value.op)?;
        Ok(())
    }
}

/// Entries in their order.
#[derive(Debug, Drop)]
pub struct Entries {
    items: Vec<Entry>,
}

impl Model for Entries {
    ghost use Rattle.std.specs.Prelude.{List};
    ghost use Rattle.princ_rows.specs.declared.entries.Entry.{Entry};

    ghost Value = { List Entry };

    ghost view = { λ e. e.items.items };
}

impl Entries {
    /// The entries of this vector, without a copy.
    pub fn from_vec(items: Vec<Entry>) -> Entries
        ensures { result ≡ items.items }
    {
        Entries { items }
    }

    /// The entries as a vector, without a copy.
    pub fn into_vec(self) -> Vec<Entry>
        ensures { result.items ≡ self }
    {
        self.items
    }

    pub fn as_slice(&self) -> &[Entry]
        ensures { result.now ≡ self.now }
    {
        &self.items
    }
}

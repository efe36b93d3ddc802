//! The texts of refusals.

ghost use Rattle.std.specs.Prelude.{◌≡◌, ◌++◌, IfOk, OnOk};
ghost use Rattle.std.specs.Fmt.{decimal};
ghost use Rattle.kadm_replies.specs.Refusals.{cause_field, cause_text, refusal_named, refusal_text};
ghost use Rattle.kadm_replies.specs.Texts.{time_text};

use crate::texts::{push, time_text};
use kdb_base::{Blob, MemoryOut, Refusal};
use std::alloc::Global;

// The number and the name of a refusal.
#[tactic(auto, unfolding(crate::specs::Refusals::refusal_named))]
fn refusal_named(refusal: &Refusal) -> &'static [u8]
    ensures { result.now ≡ refusal_named refusal.now }
{
    match refusal {
        Refusal::BadLine => b"1 BadLine",
        Refusal::BadName { offset: _ } => b"2 BadName",
        Refusal::Duplicate => b"3 Duplicate",
        Refusal::UnknownPrincipal => b"4 UnknownPrincipal",
        Refusal::UnknownPolicy => b"5 UnknownPolicy",
        Refusal::PolicyInUse { count: _ } => b"6 PolicyInUse",
        Refusal::Denied { line: _ } => b"7 Denied",
        Refusal::Protected => b"8 Protected",
        Refusal::PassTooShort => b"9 PassTooShort",
        Refusal::PassClasses => b"10 PassClasses",
        Refusal::PassReused => b"11 PassReused",
        Refusal::PassTooSoon { until: _ } => b"12 PassTooSoon",
        Refusal::BadValue { field: _ } => b"13 BadValue",
        Refusal::RecordTooLarge { size: _ } => b"14 RecordTooLarge",
        Refusal::TooManyMasters { limit: _ } => b"15 TooManyMasters",
        Refusal::UnknownMaster { version: _ } => b"16 UnknownMaster",
        Refusal::NoActiveMaster => b"17 NoActiveMaster",
        Refusal::StashMissing => b"18 StashMissing",
        Refusal::StashWrong => b"19 StashWrong",
        Refusal::NotADatabase => b"20 NotADatabase",
        Refusal::AlreadyThere => b"21 AlreadyThere",
        Refusal::Damaged { file: _, place: _ } => b"22 Damaged",
        Refusal::TimeEnd => b"23 TimeEnd",
        Refusal::DumpBad { line: _ } => b"24 DumpBad",
        Refusal::Busy => b"25 Busy",
        Refusal::Closed => b"26 Closed",
        Refusal::LineTooLong => b"27 LineTooLong",
        Refusal::KeysFull => b"28 KeysFull",
        Refusal::RowsFull { limit: _ } => b"29 RowsFull",
        Refusal::StringsFull { limit: _ } => b"30 StringsFull",
        Refusal::UnknownString => b"31 UnknownString",
        Refusal::LockedDown => b"32 LockedDown",
        Refusal::BadKeytab { place: _ } => b"33 BadKeytab",
        Refusal::UnknownEntry => b"34 UnknownEntry",
    }
}

// A word with a space before it.
fn push_word(out: &mut Vec<u8>, word: &[u8]) -> Result<(), MemoryOut>
    ensures { OnOk result (out.new.items ≡ out.old.items ++ cause_field word.now) }
{
    push(out, b" ")?;
    push(out, word)?;
    Ok(())
}

fn push_count(alloc: Global, out: &mut Vec<u8>, count: u64) -> Result<(), MemoryOut>
    ensures { OnOk result (out.new.items ≡ out.old.items ++ cause_field (decimal count)) }
{
    let text = format!(in alloc; "{count}")?;
    push_word(out, text.as_bytes())?;
    Ok(())
}

fn push_moment(alloc: Global, out: &mut Vec<u8>, secs: u32) -> Result<(), MemoryOut>
    ensures { OnOk result (out.new.items ≡ out.old.items ++ cause_field (time_text secs)) }
{
    let text = time_text(alloc, secs)?;
    push_word(out, text.as_slice())?;
    Ok(())
}

// A file and a place of it.
fn push_place(alloc: Global, out: &mut Vec<u8>, file: u8, place: u64) -> Result<(), MemoryOut>
    ensures { OnOk result
        (out.new.items ≡ out.old.items ++ (cause_field (decimal file) ++ cause_field (decimal place))) }
{
    push_count(alloc, out, u64::from(file))?;
    push_count(alloc, out, place)?;
    Ok(())
}

// What is told of a refusal's cause.
#[tactic(auto, unfolding(crate::specs::Refusals::cause_text))]
fn push_cause(alloc: Global, out: &mut Vec<u8>, refusal: &Refusal) -> Result<(), MemoryOut>
    ensures { OnOk result (out.new.items ≡ out.old.items ++ cause_text refusal.now) }
{
    match *refusal {
        Refusal::BadName { offset } => push_count(alloc, out, u64::from(offset)),
        Refusal::PolicyInUse { count } => push_count(alloc, out, u64::from(count)),
        Refusal::Denied { line } => push_count(alloc, out, u64::from(line)),
        Refusal::PassTooSoon { until } => push_moment(alloc, out, until),
        Refusal::BadValue { field } => push_word(out, field.word().as_bytes()),
        Refusal::RecordTooLarge { size } => push_count(alloc, out, size),
        Refusal::TooManyMasters { limit } => push_count(alloc, out, u64::from(limit)),
        Refusal::UnknownMaster { version } => push_count(alloc, out, u64::from(version)),
        Refusal::Damaged { file, place } => push_place(alloc, out, file, place),
        Refusal::DumpBad { line } => push_count(alloc, out, u64::from(line)),
        Refusal::RowsFull { limit } => push_count(alloc, out, u64::from(limit)),
        Refusal::StringsFull { limit } => push_count(alloc, out, u64::from(limit)),
        Refusal::BadKeytab { place } => push_count(alloc, out, place),
        _ => Ok(()),
    }
}

/// The text of a refusal, with the line feed that ends it: `err`, its number and name, and what is told of
/// the cause. Only want of memory can refuse it.
#[tactic(auto, unfolding(crate::specs::Refusals::refusal_text))]
pub fn print_refusal(alloc: Global, refusal: &Refusal) -> Result<Blob, MemoryOut>
    ensures { IfOk result (λ text. text ≡ refusal_text refusal.now) }
{
    let mut out = Vec::new(alloc);
    push(&mut out, b"err ")?;
    push(&mut out, refusal_named(refusal))?;
    push_cause(alloc, &mut out, refusal)?;
    push(&mut out, b"\n")?;
    Ok(Blob::from_vec(out))
}

//! The report of master keys.

ghost use Rattle.std.specs.Prelude.{◌≡◌, ◌++◌, IfOk, OnOk, find, nat_eq, option_map};
ghost use Rattle.key_activation.specs.Activations.{activation_of};
ghost use Rattle.serving_versions.specs.Versions.{is_active_at, is_pending};
ghost use Rattle.tab_reports.specs.Counts.{is_under, protected_by};
ghost use Rattle.tab_reports.specs.Masters.{cause_word, chain_text, ground_of, is_master_record};
ghost use Rattle.tab_reports.specs.Masters.{master_front, master_line, master_rest, masters_header};
ghost use Rattle.tab_reports.specs.Masters.{masters_text, moment_text, record_text, versions_text, yes_no};

use kadm_replies::texts::{etype_text, push};
use kdb_base::{Activation, Activations, Blob, MemoryOut};
use key_activation::active_at;
use princ_keys::KeyItem;
use princ_name::is_master;
use princ_record::Princ;
use princ_rows::Boxed;
use std::alloc::Global;

/// What the lines of versions are told by.
#[derive(Clone, Copy)]
pub(crate) struct Given<'a> {
    pub princs: &'a [Boxed<Princ>],
    pub activations: &'a Activations,
    /// The newest version.
    pub newest: u16,
    /// The moment, in seconds since 1970.
    pub secs: u32,
}

fn is_under(version: u16, princ: &Princ) -> bool
    ensures { result ≡ is_under version princ.now }
{
    princ.mkvno == version && !is_master(princ.name.as_slice())
}

/// How many principals other than K/M a version protects.
#[tactic(auto, unfolding(crate::specs::Counts::protected_by))]
fn protected_by(version: u16, princs: &[Boxed<Princ>]) -> usize
    ensures { result ≡ protected_by version princs.now }
{
    princs
        .iter()
        .filter(|row| is_under(version, row.get()))
        .count()
}

fn activation_named(list: &[Activation], version: u16) -> Option<Activation>
    ensures { result ≡ find (λ a. nat_eq a.version version) list.now }
{
    list.iter()
        .copied()
        .find(|activation| activation.version == version)
}

/// When the version becomes or became active.
#[tactic(auto, unfolding(key_activation::specs::Activations::activation_of))]
fn activation_of(list: &Activations, version: u16) -> Option<u32>
    ensures { result ≡ activation_of version list.now }
{
    match activation_named(list.as_slice(), version) {
        Some(activation) => Some(activation.secs),
        None => None,
    }
}

fn is_active(activations: &Activations, secs: u32, version: u16) -> bool
    ensures { result ≡ is_active_at activations.now secs version }
{
    match active_at(activations, secs) {
        Some(active) => active == version,
        None => false,
    }
}

#[tactic(auto, unfolding(serving_versions::specs::Versions::is_pending))]
fn is_pending(activations: &Activations, secs: u32, version: u16) -> bool
    ensures { result ≡ is_pending activations.now secs version }
{
    activations.as_slice().iter().any(|activation| activation.version == version
        && secs < activation.secs)
}

/// Seconds since 1970, or nothing.
fn moment_text(alloc: Global, secs: Option<u32>) -> Result<Blob, MemoryOut>
    ensures { IfOk result (λ text. text ≡ moment_text secs) }
{
    match secs {
        Some(secs) => {
            let text = format!(in alloc; "{secs}")?;
            Blob::from_bytes(alloc, text.as_bytes())
        }
        None => Blob::from_bytes(alloc, b""),
    }
}

fn yes_no(active: bool) -> &'static [u8]
    ensures { result.now ≡ yes_no active }
{
    if active { b"yes" } else { b"no" }
}

/// Why a version that protects so many principals serves: the first cause that holds.
#[tactic(auto, unfolding(crate::specs::Masters::cause_word))]
fn cause_word(given: &Given, count: usize, version: u16) -> &'static str
    ensures { result.now ≡ cause_word count given.now.newest given.now.activations.now given.now.secs version }
{
    if count > 0 {
        return "protects";
    }
    if is_active(given.activations, given.secs, version) {
        return "active";
    }
    if version == given.newest {
        return "newest";
    }
    if is_pending(given.activations, given.secs, version) {
        return "pending";
    }
    "none"
}

/// The version, its encryption type, its activation, and whether it is active.
#[tactic(auto, unfolding(crate::specs::Masters::master_front))]
fn push_front(
    alloc: Global,
    out: &mut Vec<u8>,
    given: &Given,
    item: &KeyItem,
) -> Result<(), MemoryOut>
    ensures { OnOk result (out.new.items ≡ out.old.items ++ master_front (ground_of given.now) item.now) }
{
    let version = item.kvno;
    let etype = etype_text(item.etype);
    let text = format!(in alloc; "{version}\t{etype}\t")?;
    let moment = moment_text(alloc, activation_of(given.activations, version))?;
    let active = is_active(given.activations, given.secs, version);
    push(out, text.as_bytes())?;
    push(out, moment.as_slice())?;
    push(out, b"\t")?;
    push(out, yes_no(active))?;
    push(out, b"\t")?;
    Ok(())
}

/// How many principals the version protects, and why it serves.
#[tactic(auto, unfolding(crate::specs::Masters::master_rest))]
fn push_rest(
    alloc: Global,
    out: &mut Vec<u8>,
    given: &Given,
    count: usize,
    item: &KeyItem,
) -> Result<(), MemoryOut>
    ensures { OnOk result (out.new.items ≡ out.old.items ++ master_rest count (ground_of given.now) item.now) }
{
    let cause = cause_word(given, count, item.kvno);
    let text = format!(in alloc; "{count}\t{cause}\n")?;
    push(out, text.as_bytes())?;
    Ok(())
}

fn push_master(
    alloc: Global,
    out: &mut Vec<u8>,
    given: &Given,
    item: &KeyItem,
) -> Result<(), MemoryOut>
    ensures { OnOk result (out.new.items ≡ out.old.items ++ master_line (ground_of given.now) item.now) }
{
    push_front(alloc, out, given, item)?;
    let count = protected_by(item.kvno, given.princs);
    push_rest(alloc, out, given, count, item)
}

/// A line for each version, by rising versions: those of the keys fall.
#[tactic(auto, unfolding(crate::specs::Masters::versions_text))]
fn push_versions(
    alloc: Global,
    out: &mut Vec<u8>,
    given: &Given,
    keys: &[KeyItem],
) -> Result<(), MemoryOut>
    ensures { OnOk result (out.new.items ≡ out.old.items ++ versions_text (ground_of given.now) keys.now) }
{
    let mut rest = keys;
    while let Some((oldest, newer)) = rest.split_last() {
        push_master(alloc, out, given, oldest)?;
        rest = newer;
    }
    Ok(())
}

/// The record of K/M.
fn master_record(princs: &[Boxed<Princ>]) -> Option<&Princ>
    ensures { option_map (λ p. p.now) result ≡ find is_master_record princs.now }
{
    for row in princs {
        if is_master(row.get().name.as_slice()) {
            return Some(row.get());
        }
    }
    None
}

fn push_chain(
    alloc: Global,
    out: &mut Vec<u8>,
    princs: &[Boxed<Princ>],
    secs: u32,
    princ: &Princ,
) -> Result<(), MemoryOut>
    ensures { OnOk result (out.new.items ≡ out.old.items ++ chain_text princs.now secs princ.now princ.now.chain) }
{
    let Some(chain) = &princ.chain else {
        return Ok(());
    };
    let given = Given {
        princs,
        activations: &chain.activations,
        newest: princ.mkvno,
        secs,
    };
    push_versions(alloc, out, &given, princ.keys.as_slice())
}

fn push_record(
    alloc: Global,
    out: &mut Vec<u8>,
    princs: &[Boxed<Princ>],
    secs: u32,
) -> Result<(), MemoryOut>
    ensures { OnOk result
        (out.new.items ≡ out.old.items ++ record_text princs.now secs (find is_master_record princs.now)) }
{
    match master_record(princs) {
        Some(princ) => push_chain(alloc, out, princs, secs, princ),
        None => Ok(()),
    }
}

#[tactic(auto, unfolding(crate::specs::Masters::masters_header))]
fn masters_header() -> &'static [u8]
    ensures { result.now ≡ masters_header }
{
    b"version\tenctype\tactivation\tactive\tprotects\tcause\n"
}

/// A header, and a line for each version of the master key.
#[tactic(auto, unfolding(crate::specs::Masters::masters_text))]
pub(crate) fn push_masters(
    alloc: Global,
    out: &mut Vec<u8>,
    princs: &[Boxed<Princ>],
    secs: u32,
) -> Result<(), MemoryOut>
    ensures { OnOk result (out.new.items ≡ out.old.items ++ masters_text princs.now secs) }
{
    push(out, masters_header())?;
    push_record(alloc, out, princs, secs)?;
    Ok(())
}

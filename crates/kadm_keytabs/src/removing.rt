//! Entries that are taken out of a keytab.

ghost use Rattle.std.specs.Prelude.{◌≡◌, ◌≢◌, ◌<◌, ℕ, List, Some, Err, IfErr, IfOk, OnOk, length};
ghost use Rattle.std.specs.List.{list_any};
ghost use Rattle.kadm_keytabs.specs.Answers.{Answers, IsFilterHalt, IsPartWritten, IsWritten};
ghost use Rattle.session_base.specs.Wholes.{IsReadWhole, WereTaken};
ghost use Rattle.kadm_keytabs.specs.Removals.{Removes, is_asked};
ghost use Rattle.session_base.specs.Halts.{Counts};
ghost use Rattle.keytab_out.specs.Removed.{left};

use crate::answers::{Answer, keytab_answer, refusal_answer, write_answer};
use crate::inputs::{read_input, read_keytab_input};
use kdb_base::{MemoryOut, Refusal};
use kdb_ports::{Sink, Source};
use keytab_out::{KeytabFault, KeytabList, Which, has_entry, remove_entries};
use princ_name::Name;
use session_base::SessionHalt;
use std::alloc::Global;

// Takes the entries out, and tells whether there was one of the name, and of the version where one is named.
fn take_out(list: &mut KeytabList, name: &Name, which: Which) -> bool
    requires { length list.old < 4294967296 }
    ensures asked { result ≡ list_any (is_asked name.now which) list.old }
    ensures left { list.new ≡ left name.now which list.old }
{
    let known = has_entry(list, name);
    let count = remove_entries(list, name, which);
    match which {
        Which::One(_) => count > 0,
        Which::All | Which::Older => known,
    }
}

// What is answered to a keytab.
fn answer_list(
    alloc: Global,
    name: &Name,
    which: Which,
    list: KeytabList,
) -> Result<Answer, MemoryOut>
    requires { length list < 4294967296 }
    ensures { IfOk result (λ answer. Removes name.now which list answer) }
{
    let mut list = list;
    if take_out(&mut list, name, which) {
        keytab_answer(alloc, &list)
    } else {
        refusal_answer(alloc, Refusal::UnknownEntry)
    }
}

// What is answered to an input, by what was kept of it.
fn answer_input(alloc: Global, name: &Name, which: Which, kept: &[u8]) -> Result<Answer, MemoryOut>
    ensures { IfOk result (λ answer. Answers (Removes name.now which) kept.now answer) }
{
    match read_keytab_input(alloc, kept) {
        Ok(list) => answer_list(alloc, name, which, list),
        Err(KeytabFault::BadKeytab { place }) => {
            refusal_answer(alloc, Refusal::BadKeytab { place })
        }
        Err(KeytabFault::MemoryOut) => Err(MemoryOut),
    }
}

/// Reads a keytab from the source, and writes it to the sink without the entries of the name that are named: those of
/// a version, all, or those below the greatest version. Holes, and what follows a mark of the end, are not written. It
/// answers whether a refusal was written in its place: `BadKeytab` where the input is no keytab of at most 1048576
/// bytes, then `UnknownEntry` where it has no entry of the name, or of the name and the version.
///
/// # Errors
///
/// `ReadFault` and `WriteFault` only where that object's count of faults rose, `InputTooLong` where 4294967296 bytes
/// were taken and no end had come, `MemoryOut` where memory is wanted and not given. All memory is taken before the
/// first byte is written.
pub fn ktremove<S: Source, K: Sink>(
    alloc: Global,
    name: &Name,
    which: Which,
    source: &mut S,
    sink: &mut K,
) -> Result<bool, SessionHalt>
    ensures ended { (text : List ℕ) → S.left source.old ≡ Some text
        → IfOk result (λ refused.
        IsWritten (Answers (Removes name.now which) text) refused (K.taken sink.old) (K.taken sink.new)) }
    ensures cut { (text : List ℕ) → S.left source.old ≡ Some text
        → result ≡ Err SessionHalt.WriteFault
        → IsPartWritten (Answers (Removes name.now which) text) (K.taken sink.old) (K.taken sink.new) }
    ensures unwritten { IfErr result (λ halt. halt ≢ SessionHalt.WriteFault → sink.new ≡ sink.old) }
    ensures read { OnOk result (IsReadWhole (S.left source.old) (S.left source.new)) }
    ensures too_long { result ≡ Err SessionHalt.InputTooLong
        → WereTaken 4294967296 (S.left source.old) (S.left source.new) }
    ensures halt { IfErr result IsFilterHalt }
    ensures reads { Counts (S.faults source.old) (S.faults source.new) (result ≡ Err SessionHalt.ReadFault) }
    ensures writes { Counts (K.faults sink.old) (K.faults sink.new) (result ≡ Err SessionHalt.WriteFault) }
{
    let kept = match read_input(alloc, source) {
        Ok(kept) => kept,
        Err(halt) => return Err(halt),
    };
    match answer_input(alloc, name, which, kept.as_slice()) {
        Ok(answer) => write_answer(sink, &answer),
        Err(_) => Err(SessionHalt::MemoryOut),
    }
}

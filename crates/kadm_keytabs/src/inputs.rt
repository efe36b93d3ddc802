//! An input that is a keytab.

ghost use Rattle.std.specs.Prelude.{◌≡◌, ◌≤◌, ◌<◌, ◌++◌, ℕ, List, Err, IfErr, IfOk, OnOk, length, take};
ghost use Rattle.kadm_keytabs.specs.Inputs.{IsBadInput, IsInputHalt, IsKept, IsKeytabInput, IsTaken, most_kept};
ghost use Rattle.session_base.specs.Wholes.{IsReadWhole, WereTaken};
ghost use Rattle.session_base.specs.Halts.{Counts};
ghost use Rattle.kdb_ports.specs.Told.{IsSpent};
ghost use Rattle.keytab_out.specs.Keytabs.{Gives, RefusesAt};
ghost use Rattle.keytab_out.specs.declared.faults.KeytabFault.TheVariants.{BadKeytab};
ghost use Rattle.stash_file.specs.Pieces.{Told};

use kdb_base::{Blob, MemoryOut};
use kdb_ports::Source;
use keytab_out::{KeytabFault, KeytabList, read_keytab};
use session_base::SessionHalt;
use std::alloc::Global;

// How many bytes a keytab has at most, as an input.
const LONGEST_KEYTAB: usize = 1048576;

// How many bytes of an input are kept: one more tells that it is too long.
const MOST_KEPT: usize = LONGEST_KEYTAB + 1;

// How many bytes are taken from a source at most.
const INPUT_LIMIT: u64 = 4294967296;

// How many bytes are read at once.
const PIECE: usize = 65536;

// So many bytes.
pub(crate) fn blank(alloc: Global, size: usize) -> Result<Vec<u8>, MemoryOut>
    ensures { IfOk result (λ bytes. length bytes.items ≡ size) }
{
    let bytes = vec![in alloc; 0u8; size]?;
    Ok(bytes)
}

// Appends of these bytes what fits.
fn keep(kept: &mut Vec<u8>, bytes: &[u8]) -> Result<(), MemoryOut>
    requires { length kept.old.items ≤ most_kept }
    ensures { OnOk result (kept.new.items ≡ take most_kept (kept.old.items ++ bytes.now)) }
{
    let count = bytes.len().min(MOST_KEPT - kept.len());
    kept.extend_from_slice(&bytes[..count])?;
    Ok(())
}

// Reads at most so many bytes, and keeps of them what fits.
fn read_piece<S: Source>(
    source: &mut S,
    piece: &mut [u8],
    limit: usize,
    kept: &mut Vec<u8>,
) -> Result<usize, SessionHalt>
    requires some { 0 < limit }
    requires within { limit ≤ length piece.old }
    requires short { length kept.old.items ≤ most_kept }
    ensures taken { IfOk result (λ n. IsTaken (S.left source.old) (S.left source.new) n kept.old.items kept.new.items) }
    ensures bound { IfOk result (λ n. n ≤ limit) }
    ensures end { IfOk result (λ n. n ≡ 0 → IsSpent (S.left source.new)) }
    ensures same { length piece.new ≡ length piece.old }
    ensures halt { IfErr result IsInputHalt }
    ensures not_long { IfErr result (λ halt. halt ≡ SessionHalt.InputTooLong → ⊥) }
    ensures faults { Counts (S.faults source.old) (S.faults source.new) (result ≡ Err SessionHalt.ReadFault) }
{
    match source.read(&mut piece[..limit]) {
        Ok(count) => match keep(kept, &piece[..count]) {
            Ok(()) => Ok(count),
            Err(_) => Err(SessionHalt::MemoryOut),
        },
        Err(_) => Err(SessionHalt::ReadFault),
    }
}

/// Reads an input to its end. Its first 1048577 bytes are kept, and what comes behind them is dropped, so that the
/// memory in use does not grow with the input.
///
/// # Errors
///
/// `ReadFault` only where the source's count of faults rose, `InputTooLong` where 4294967296 bytes were taken and no
/// end had come, `MemoryOut` where memory is wanted and not given.
pub fn read_input<S: Source>(alloc: Global, source: &mut S) -> Result<Blob, SessionHalt>
    ensures kept { IfOk result (λ kept. IsKept (S.left source.old) kept) }
    ensures short { IfOk result (λ kept. length kept ≤ most_kept) }
    ensures read { OnOk result (IsReadWhole (S.left source.old) (S.left source.new)) }
    ensures too_long { result ≡ Err SessionHalt.InputTooLong
        → WereTaken 4294967296 (S.left source.old) (S.left source.new) }
    ensures halt { IfErr result IsInputHalt }
    ensures faults { Counts (S.faults source.old) (S.faults source.new) (result ≡ Err SessionHalt.ReadFault) }
{
    let mut piece = match blank(alloc, PIECE) {
        Ok(piece) => piece,
        Err(_) => return Err(SessionHalt::MemoryOut),
    };
    let mut kept = Vec::new(alloc);
    let mut taken: u64 = 0;
    while taken < INPUT_LIMIT {
        let limit = (INPUT_LIMIT - taken).min(PIECE as u64) as usize;
        match read_piece(source, &mut piece, limit, &mut kept) {
            Ok(0) => return Ok(Blob::from_vec(kept)),
            Ok(count) => taken += count as u64,
            Err(halt) => return Err(halt),
        }
    }
    Err(SessionHalt::InputTooLong)
}

/// The keytab that an input is, by its first 1048577 bytes, or by all where it has fewer.
///
/// # Errors
///
/// `BadKeytab` where it has more than 1048576 bytes, with that place, and where it breaks the grammar; `MemoryOut`
/// where memory is wanted and not given.
pub fn read_keytab_input(alloc: Global, kept: &[u8]) -> Result<KeytabList, KeytabFault>
    ensures ok { IfOk result (λ list. IsKeytabInput kept.now list) }
    ensures bad { (place : ℕ) → result ≡ Err (BadKeytab place) → IsBadInput kept.now place }
    // What is a keytab is read, unless memory runs out, and what is none is refused.
    ensures only { (entries : List Told) → IsKeytabInput kept.now entries → Gives result entries }
    ensures only_bad { (place : ℕ) → IsBadInput kept.now place → RefusesAt result place }
    ensures few { IfOk result (λ list. length list < 4294967296) }
{
    if kept.len() > LONGEST_KEYTAB {
        return Err(KeytabFault::BadKeytab {
            place: LONGEST_KEYTAB as u64,
        });
    }
    read_keytab(alloc, kept)
}

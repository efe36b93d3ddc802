//! The lines that a replica's run writes.
ghost use Rattle.std.specs.Prelude.{◌≡◌, ◌++◌, Err, IfErr, IfOk, OnErr, OnOk, true};
ghost use Rattle.std.specs.Fmt.{decimal};
ghost use Rattle.iprop_links.specs.Arriving.{Counts};
ghost use Rattle.kadm_replies.specs.Refusals.{refusal_text};
ghost use Rattle.kadm_replies.specs.Texts.{done_text};
ghost use Rattle.kdb_ports.specs.Parts.{SaidPart};
ghost use Rattle.kdb_ports.specs.Told.{after_told};
ghost use Rattle.kprop_runs.specs.Halts.{IsSayHalt};
ghost use Rattle.kprop_runs.specs.Lines.{is_refused, round_line, round_told, word_text};

use crate::halts::RunHalt;
use kadm_replies::print_refusal;
use kadm_replies::texts::{push, push_done, push_line};
use kadm_values::push_point;
use kdb_base::{Blob, MemoryOut, Point, Refusal};
use kdb_ports::{Sink, write_whole};
use kprop_rounds::RoundWord;
use std::alloc::Global;

/// A number in decimal digits.
fn push_number(alloc: Global, out: &mut Vec<u8>, number: u32) -> Result<(), MemoryOut>
    ensures { OnOk result (out.new.items ≡ out.old.items ++ decimal number) }
{
    let number = format!(in alloc; "{number}")?;
    push(out, number.as_bytes())?;
    Ok(())
}

/// A text and a number behind it.
fn push_counted(alloc: Global, out: &mut Vec<u8>, text: &[u8], number: u32) -> Result<(), MemoryOut>
    ensures { OnOk result (out.new.items ≡ out.old.items ++ (text.now ++ decimal number)) }
{
    push(out, text)?;
    push_number(alloc, out, number)?;
    Ok(())
}

/// What a round came to, in words.
#[tactic(auto, unfolding(crate::specs::Lines::word_text))]
fn push_word(alloc: Global, out: &mut Vec<u8>, word: &RoundWord) -> Result<(), MemoryOut>
    ensures { OnOk result (out.new.items ≡ out.old.items ++ word_text word.now) }
{
    match *word {
        RoundWord::Nil => push(out, b"nil"),
        RoundWord::Updated(count) => push_counted(alloc, out, b"updated ", count),
        RoundWord::Loaded => push(out, b"loaded"),
        RoundWord::Busy => push(out, b"busy"),
        RoundWord::Denied => push(out, b"denied"),
        RoundWord::Cut => push(out, b"cut"),
        RoundWord::WrongPoint => push(out, b"refused WrongPoint"),
        RoundWord::Gap => push(out, b"refused Gap"),
        RoundWord::DumpBad(line) => push_counted(alloc, out, b"refused DumpBad ", line),
        RoundWord::BadFrame => push(out, b"refused BadFrame"),
    }
}

/// Whether the replica refused what came.
fn is_refused(word: &RoundWord) -> bool
    ensures { result ≡ is_refused word.now }
{
    matches!(
        word,
        RoundWord::WrongPoint | RoundWord::Gap | RoundWord::DumpBad(_) | RoundWord::BadFrame
    )
}

/// A round's number, its word, and the replica's point after it.
#[tactic(auto, unfolding(crate::specs::Lines::round_told))]
fn push_round(
    alloc: Global,
    out: &mut Vec<u8>,
    number: u32,
    word: &RoundWord,
    point: &Point,
) -> Result<(), MemoryOut>
    ensures { OnOk result (out.new.items ≡ out.old.items ++ round_told number word.now point.now) }
{
    push(out, b"round ")?;
    push_number(alloc, out, number)?;
    push(out, b" ")?;
    push_word(alloc, out, word)?;
    push(out, b" ")?;
    push_point(alloc, out, point)?;
    Ok(())
}

/// The line of a round. Only want of memory can refuse it.
fn print_round(
    alloc: Global,
    number: u32,
    word: &RoundWord,
    point: &Point,
) -> Result<Blob, MemoryOut>
    ensures { IfOk result (λ text. text ≡ round_line number word.now point.now) }
{
    let mut told = Vec::new(alloc);
    push_round(alloc, &mut told, number, word, point)?;
    let mut out = Vec::new(alloc);
    push_line(&mut out, told.as_slice())?;
    Ok(Blob::from_vec(out))
}

/// The last line behind the rounds. Only want of memory can refuse it.
fn print_done(alloc: Global, point: &Point) -> Result<Blob, MemoryOut>
    ensures { IfOk result (λ text. text ≡ done_text point.now) }
{
    let mut out = Vec::new(alloc);
    push_done(alloc, &mut out, point)?;
    Ok(Blob::from_vec(out))
}

/// Writes a text whole, and answers this where it was written.
fn say<K: Sink>(sink: &mut K, text: &[u8], refused: bool) -> Result<bool, RunHalt>
    ensures ok { OnOk result (K.taken sink.new ≡ after_told (K.taken sink.old) text.now) }
    ensures value { IfOk result (λ answer. answer ≡ refused) }
    ensures err { OnErr result (SaidPart text.now (K.taken sink.old) (K.taken sink.new)) }
    ensures halt { IfErr result IsSayHalt }
    ensures faults { Counts (K.faults sink.old) (K.faults sink.new) (result ≡ Err RunHalt.WriteFault) }
{
    match write_whole(sink, text) {
        Ok(()) => Ok(refused),
        Err(_) => Err(RunHalt::WriteFault),
    }
}

/// Writes the line of a round, and answers whether the replica refused what came.
pub(crate) fn say_round<K: Sink>(
    alloc: Global,
    sink: &mut K,
    number: u32,
    word: &RoundWord,
    point: &Point,
) -> Result<bool, RunHalt>
    ensures ok { OnOk result (K.taken sink.new ≡ after_told (K.taken sink.old) (round_line number word.now point.now)) }
    ensures value { IfOk result (λ answer. answer ≡ is_refused word.now) }
    ensures err { OnErr result (SaidPart (round_line number word.now point.now) (K.taken sink.old) (K.taken sink.new)) }
    ensures halt { IfErr result IsSayHalt }
    ensures faults { Counts (K.faults sink.old) (K.faults sink.new) (result ≡ Err RunHalt.WriteFault) }
{
    match print_round(alloc, number, word, point) {
        Ok(text) => say(sink, text.as_slice(), is_refused(word)),
        Err(_) => Err(RunHalt::MemoryOut),
    }
}

/// Writes the last line behind the rounds, and answers this where it was written.
pub(crate) fn say_done<K: Sink>(
    alloc: Global,
    sink: &mut K,
    point: &Point,
    refused: bool,
) -> Result<bool, RunHalt>
    ensures ok { OnOk result (K.taken sink.new ≡ after_told (K.taken sink.old) (done_text point.now)) }
    ensures value { IfOk result (λ answer. answer ≡ refused) }
    ensures err { OnErr result (SaidPart (done_text point.now) (K.taken sink.old) (K.taken sink.new)) }
    ensures halt { IfErr result IsSayHalt }
    ensures faults { Counts (K.faults sink.old) (K.faults sink.new) (result ≡ Err RunHalt.WriteFault) }
{
    match print_done(alloc, point) {
        Ok(text) => say(sink, text.as_slice(), refused),
        Err(_) => Err(RunHalt::MemoryOut),
    }
}

/// Writes a refusal, and answers that one was written.
pub(crate) fn refuse<K: Sink>(
    alloc: Global,
    sink: &mut K,
    refusal: &Refusal,
) -> Result<bool, RunHalt>
    ensures ok { OnOk result (K.taken sink.new ≡ after_told (K.taken sink.old) (refusal_text refusal.now)) }
    ensures value { IfOk result (λ answer. answer ≡ true) }
    ensures err { OnErr result (SaidPart (refusal_text refusal.now) (K.taken sink.old) (K.taken sink.new)) }
    ensures halt { IfErr result IsSayHalt }
    ensures faults { Counts (K.faults sink.old) (K.faults sink.new) (result ≡ Err RunHalt.WriteFault) }
{
    match print_refusal(alloc, refusal) {
        Ok(text) => say(sink, text.as_slice(), true),
        Err(_) => Err(RunHalt::MemoryOut),
    }
}

//! Lines of administrators.

ghost use Rattle.std.specs.Prelude.{List, ℕ, ◌≡◌, ◌≤◌, ◌∷◌, length, Ok, Err, None, Some, IfOk};
ghost use Rattle.kadm_commands.specs.Commands.{IsCommand};
ghost use Rattle.kadm_commands.specs.declared.commands.Command.{Command};
ghost use Rattle.kdb_base.specs.declared.outcomes.Halt.{Halt};
ghost use Rattle.kdb_base.specs.declared.outcomes.Refusal.{Refusal};
ghost use Rattle.kadm_words.specs.Words.{AreWithin};
ghost use Rattle.kadm_wire.specs.LineReadings.{is_comment, line_reading, reading, shape_reading, split_reading};
ghost use Rattle.kadm_wire.specs.LineReadings.{whole_reading, words_answer, words_reading, are_short};
ghost use Rattle.kadm_words.specs.Splitting.{words_in};
ghost use Rattle.kadm_wire.specs.Lines.{IsReading};
ghost use Rattle.kadm_wire.specs.Shapes.{others_in, shape_behind};

use crate::options::{has_flags, is_whole, known_options};
use crate::readings::{Reading, read_command};
use crate::verbs::{Verb, find_verb};
use kadm_commands::Command;
use kadm_options::{Given, is_dashes, read_options};
use kadm_words::split_words;
use kdb_base::{Blob, Halt, MemoryOut, Refusal, Stop};
use std::alloc::Global;

/// The most bytes of a line.
const LONGEST_LINE: usize = 65_536;

fn bad_line() -> Reading
    ensures { result ≡ Reading.Refuses Refusal.BadLine }
{
    Reading::Refuses(Refusal::BadLine)
}

// A command whose options may exclude each other.
fn read_whole(
    alloc: Global,
    verb: Verb,
    options: &[Given],
    others: &[Blob],
    realm: &[u8],
) -> Result<Reading, MemoryOut>
    requires { AreWithin 65536 others.now }
    ensures { IfOk result (λ r. r ≡ whole_reading realm.now verb options.now others.now) }
{
    if !is_whole(verb, options) {
        return Ok(bad_line());
    }
    read_command(alloc, verb, options, others, realm)
}

// The words behind two dashes, where these stand first.
#[tactic(auto, unfolding(crate::specs::Shapes::others_in))]
fn behind_dashes(words: &[Blob]) -> &[Blob]
    ensures { result.now ≡ others_in words.now }
{
    match words.split_first() {
        Some((word, behind)) => {
            if is_dashes(word.as_slice()) {
                behind
            } else {
                words
            }
        }
        None => words,
    }
}

// The words behind that of the command.
fn read_behind(
    alloc: Global,
    verb: Verb,
    words: &[Blob],
    realm: &[u8],
) -> Result<Reading, MemoryOut>
    requires { AreWithin 65536 words.now }
    ensures { IfOk result (λ r. r ≡ shape_reading realm.now (shape_behind verb words.now)) }
{
    match read_options(alloc, known_options(verb), has_flags(verb), words)? {
        Some(found) => {
            let others = behind_dashes(&words[found.count..]);
            read_whole(alloc, verb, &found.options, others, realm)
        }
        None => Ok(bad_line()),
    }
}

// What the words of a line say.
#[tactic(auto, unfolding(crate::specs::LineReadings::words_reading, crate::specs::Shapes::shape_in))]
fn read_words(alloc: Global, words: &[Blob], realm: &[u8]) -> Result<Reading, MemoryOut>
    requires { AreWithin 65536 words.now }
    ensures { IfOk result (λ r. r ≡ words_reading realm.now words.now) }
{
    match words.split_first() {
        Some((word, behind)) => match find_verb(word.as_slice()) {
            Some(verb) => read_behind(alloc, verb, behind, realm),
            None => Ok(bad_line()),
        },
        None => Ok(Reading::Skipped),
    }
}

#[tactic(auto, unfolding(crate::specs::LineReadings::is_comment))]
fn is_comment(line: &[u8]) -> bool
    ensures { result ≡ is_comment line.now }
{
    match line {
        [byte, ..] => *byte == b'#',
        [] => false,
    }
}

fn read_split(alloc: Global, line: &[u8], realm: &[u8]) -> Result<Reading, MemoryOut>
    requires { length line.now ≤ 65536 }
    ensures { IfOk result (λ r. r ≡ split_reading realm.now (words_in line.now)) }
{
    match split_words(alloc, line)? {
        Some(words) => read_words(alloc, words.as_slice(), realm),
        None => Ok(bad_line()),
    }
}

#[tactic(auto, unfolding(crate::specs::LineReadings::line_reading))]
fn line_reading(alloc: Global, line: &[u8], realm: &[u8]) -> Result<Reading, MemoryOut>
    ensures { IfOk result (λ r. r ≡ line_reading realm.now line.now) }
{
    if line.len() > LONGEST_LINE {
        return Ok(Reading::Refuses(Refusal::LineTooLong));
    }
    if is_comment(line) {
        return Ok(Reading::Skipped);
    }
    read_split(alloc, line, realm)
}

/// What a line says in a database of this realm. Only want of memory can refuse the reading itself.
pub fn read_line(alloc: Global, line: &[u8], realm: &[u8]) -> Result<Reading, MemoryOut>
    ensures read { IfOk result (λ r. IsReading line.now realm.now r) }
    ensures value { IfOk result (λ r. r ≡ line_reading realm.now line.now) }
{
    let reading = line_reading(alloc, line, realm)?;
    Ok(reading)
}

/// The command of a line, given without its line feed, in a database of this realm. A comment and a line
/// without words have none. The first of these causes refuses a line: it has more than 65536 bytes, it is
/// not of the grammar, a name is bad, a value is unreadable. Only want of memory halts.
pub fn parse_line(alloc: Global, line: &[u8], realm: &[u8]) -> Result<Option<Command>, Stop>
    ensures command { (command : Command) → result ≡ Ok (Some command)
        → IsReading line.now realm.now (Reading.Says command) }
    ensures skipped { result ≡ Ok None → IsReading line.now realm.now Reading.Skipped }
    ensures refused { (refusal : Refusal) → result ≡ Err (Stop.Refused refusal)
        → IsReading line.now realm.now (Reading.Refuses refusal) }
    ensures valid { (command : Command) → result ≡ Ok (Some command) → IsCommand realm.now command }
    ensures command_value { (command : Command) → result ≡ Ok (Some command)
        → reading realm.now line.now ≡ Ok (Some command) }
    ensures skipped_value { result ≡ Ok None → reading realm.now line.now ≡ Ok None }
    ensures refused_value { (refusal : Refusal) → result ≡ Err (Stop.Refused refusal)
        → reading realm.now line.now ≡ Err refusal }
    ensures memory { (halt : Halt) → result ≡ Err (Stop.Halt halt) → halt ≡ Halt.MemoryOut }
{
    match read_line(alloc, line, realm) {
        Ok(Reading::Skipped) => Ok(None),
        Ok(Reading::Says(command)) => Ok(Some(command)),
        Ok(Reading::Refuses(refusal)) => Err(Stop::Refused(refusal)),
        Err(MemoryOut) => Err(Stop::Halt(Halt::MemoryOut)),
    }
}

// Whether no word is longer than a line may be.
#[tactic(auto, unfolding(crate::specs::LineReadings::are_short))]
fn are_short(words: &[Blob]) -> bool
    ensures { result ≡ are_short words.now }
{
    words
        .iter()
        .all(|word| word.as_slice().len() <= LONGEST_LINE)
}

#[tactic(auto, unfolding(crate::specs::LineReadings::words_answer))]
fn words_answer(
    alloc: Global,
    words: &[Blob],
    realm: &[u8],
) -> Result<Result<Option<Command>, Refusal>, MemoryOut>
    ensures { IfOk result (λ said. said ≡ words_answer realm.now words.now) }
{
    if !are_short(words) {
        return Ok(Err(Refusal::BadLine));
    }
    match read_words(alloc, words, realm)? {
        Reading::Skipped => Ok(Ok(None)),
        Reading::Says(command) => Ok(Ok(Some(command))),
        Reading::Refuses(refusal) => Ok(Err(refusal)),
    }
}

/// The command that words spell which come one by one, as a program is given them, in a database of this realm. No
/// words have none. The first of these causes refuses them: a word has more than 65536 bytes or they are not of the
/// grammar, a name is bad, a value is unreadable. Only want of memory halts.
pub fn parse_words(
    alloc: Global,
    words: &[Blob],
    realm: &[u8],
) -> Result<Result<Option<Command>, Refusal>, MemoryOut>
    ensures value { IfOk result (λ said. said ≡ words_answer realm.now words.now) }
    ensures valid { (command : Command) → result ≡ Ok (Ok (Some command)) → IsCommand realm.now command }
{
    words_answer(alloc, words, realm)
}

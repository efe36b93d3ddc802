//! The options in front of words.

ghost use Rattle.std.specs.Prelude.{◌≡◌, ◌≤◌, ◌++◌, [], ◌∷◌, IfOk, IfSome, OnOk, None, length, option_map};
ghost use Rattle.kadm_options.specs.OptionSteps.{Steps, options_of, parts_of, pending_of};
ghost use Rattle.kadm_options.specs.Options.{options_in, option_named};

use crate::options::{Given, Opening, Setting, ends_options, find_option};
use kdb_base::{Blob, MemoryOut};
use std::alloc::Global;

/// The options in front of words.
#[derive(Drop)]
pub struct LeadingOptions {
    /// In the order of the words.
    pub options: Vec<Given>,
    /// How many words are theirs.
    pub count: usize,
}

// The options that were read, and the one before that wants its value.
#[derive(Drop)]
struct Reader {
    options: Vec<Given>,
    pending: Option<Setting>,
}

// What comes of a word.
#[derive(Clone, Copy, Debug)]
enum Step {
    Taken,
    // No option is spelled so.
    Broken,
    // The options end before it.
    Ended,
}

impl Reader {
    // Takes the word of an option.
    fn take_opening(&mut self, opening: Opening) -> Result<(), MemoryOut>
        requires { self.old.pending ≡ None }
        ensures options { OnOk result (self.new.options.items ≡ self.old.options.items ++ options_of opening) }
        ensures pending { OnOk result (self.new.pending ≡ pending_of opening) }
    {
        match opening {
            Opening::Flag(change) => {
                self.options.push(Given::Flag(change))?;
                Ok(())
            }
            Opening::Alone(option) => {
                self.options.push(Given::Alone(option))?;
                Ok(())
            }
            Opening::Value(setting) => {
                self.pending = Some(setting);
                Ok(())
            }
        }
    }

    fn take_value(&mut self, alloc: Global, setting: Setting, word: &[u8]) -> Result<(), MemoryOut>
        ensures options { OnOk result
            (self.new.options.items ≡ self.old.options.items ++ Given.Value setting word.now ∷ []) }
        ensures pending { OnOk result (self.new.pending ≡ None) }
    {
        let value = Blob::from_bytes(alloc, word)?;
        self.options.push(Given::Value(setting, value))?;
        self.pending = None;
        Ok(())
    }

    fn take_word(&mut self, known: &[Opening], flags: bool, word: &[u8]) -> Result<Step, MemoryOut>
        requires { self.old.pending ≡ None }
        ensures { IfOk result (λ step. Steps (option_named known.now flags) word.now self.old self.new step) }
    {
        if ends_options(word) {
            return Ok(Step::Ended);
        }
        match find_option(known, flags, word) {
            Some(opening) => {
                self.take_opening(opening)?;
                Ok(Step::Taken)
            }
            None => Ok(Step::Broken),
        }
    }

    fn take(
        &mut self,
        alloc: Global,
        known: &[Opening],
        flags: bool,
        word: &[u8],
    ) -> Result<Step, MemoryOut>
        ensures { IfOk result (λ step. Steps (option_named known.now flags) word.now self.old self.new step) }
    {
        match self.pending {
            Some(setting) => {
                self.take_value(alloc, setting, word)?;
                Ok(Step::Taken)
            }
            None => self.take_word(known, flags, word),
        }
    }

    fn finish(self, count: usize) -> LeadingOptions
        ensures options { result.options.items ≡ self.options.items }
        ensures count { result.count ≡ count }
    {
        LeadingOptions {
            options: self.options,
            count,
        }
    }
}

/// The options in front of these words, as far as options go: up to two dashes, or to a word that begins
/// with neither `-` nor `+`. These options may stand, and flags or none. Nothing where a word says no such
/// option, or a value is missing.
pub fn read_options(
    alloc: Global,
    known: &[Opening],
    flags: bool,
    words: &[Blob],
) -> Result<Option<LeadingOptions>, MemoryOut>
    ensures parts { IfOk result
        (λ found. option_map (parts_of words.now) found ≡ options_in (option_named known.now flags) words.now) }
    ensures within { IfOk result (λ found. IfSome found (λ x. x.count ≤ length words.now)) }
{
    let mut reader = Reader {
        options: Vec::new(alloc),
        pending: None,
    };
    for (at, word) in words.iter().enumerate() {
        match reader.take(alloc, known, flags, word.as_slice())? {
            Step::Taken => {}
            Step::Broken => return Ok(None),
            Step::Ended => return Ok(Some(reader.finish(at))),
        }
    }
    if reader.pending.is_some() {
        return Ok(None);
    }
    Ok(Some(reader.finish(words.len())))
}

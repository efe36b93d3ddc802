//! What the words of a script to be made say.

ghost use Rattle.std.specs.Prelude.{◌≡◌};
ghost use Rattle.made_scripts.specs.Words.{script_by, script_in};

use kadm_options::{is_dashes, read_within};
use kdb_base::{Blob, Field, Refusal};

/// A script to be made.
#[derive(Clone, Copy, Debug, PartialEq, Eq)]
pub struct Script {
    /// Where the numbers of the names begin.
    pub seed: u32,
    /// How many lines it has, 1 to 1000.
    pub count: u32,
}

/// The script of a seed and a number of lines. The seed is judged first.
fn script_by(seed: &[u8], count: &[u8]) -> Result<Script, Refusal>
    ensures { result ≡ script_by seed.now count.now }
{
    let Some(seed) = read_within(0, u32::MAX, seed) else {
        return Err(Refusal::BadValue { field: Field::Seed });
    };
    match read_within(1, 1000, count) {
        Some(count) => Ok(Script { seed, count }),
        None => Err(Refusal::BadValue {
            field: Field::Count,
        }),
    }
}

/// The script that is asked for: its seed and its number of lines stand alone, or behind the word that ends options.
///
/// # Errors
///
/// `BadLine` where there are other words, `BadValue` where a word is no number, or one out of its range.
#[tactic(auto, unfolding(crate::specs::Words::script_in))]
pub fn read_script(words: &[Blob]) -> Result<Script, Refusal>
    ensures { result ≡ script_in words.now }
{
    match words {
        [seed, count] => script_by(seed.as_slice(), count.as_slice()),
        [dashes, seed, count] => {
            if is_dashes(dashes.as_slice()) {
                script_by(seed.as_slice(), count.as_slice())
            } else {
                Err(Refusal::BadLine)
            }
        }
        _ => Err(Refusal::BadLine),
    }
}

//! The letters of operations.

ghost use Rattle.std.specs.Prelude.{◌≡◌};
ghost use Rattle.acl_text.specs.Letters.{are_letters, counts_for, grants, in_small};
ghost use Rattle.acl_text.specs.Letters.{is_all, is_capital, is_letter, is_operation};

fn is_capital(byte: u8) -> bool
    ensures { result ≡ is_capital byte }
{
    65 <= byte && byte <= 90
}

fn in_small(byte: u8) -> u8
    ensures { result ≡ in_small byte }
{
    if is_capital(byte) { byte + 32 } else { byte }
}

#[tactic(auto, unfolding(crate::specs::Letters::is_operation))]
fn is_operation(letter: u8) -> bool
    ensures { result ≡ is_operation letter }
{
    letter == b'a'
        || letter == b'd'
        || letter == b'm'
        || letter == b'c'
        || letter == b'i'
        || letter == b'l'
        || letter == b's'
        || letter == b'p'
        || letter == b'e'
}

// `x` and `*` stand for every operation but `e`.
fn is_all(letter: u8) -> bool
    ensures { result ≡ is_all letter }
{
    letter == b'x' || letter == b'*'
}

// Whether a byte of the letters counts for an operation.
#[tactic(auto, unfolding(crate::specs::Letters::counts_for))]
fn counts_for(operation: u8, byte: u8) -> bool
    ensures { result ≡ counts_for operation byte }
{
    let letter = in_small(byte);
    is_operation(operation) && (letter == operation || (is_all(letter) && operation != b'e'))
}

#[tactic(auto, unfolding(crate::specs::Letters::is_letter))]
fn is_letter(byte: u8) -> bool
    ensures { result ≡ is_letter byte }
{
    let letter = in_small(byte);
    is_operation(letter) || is_all(letter)
}

/// Whether each byte of the word is a letter of an operation.
#[tactic(auto, unfolding(crate::specs::Letters::are_letters))]
pub(crate) fn are_letters(word: &[u8]) -> bool
    ensures { result ≡ are_letters word.now }
{
    word.iter().all(|byte| is_letter(*byte))
}

/// Whether the letters grant an operation: the last one that counts for it decides.
#[tactic(auto, unfolding(crate::specs::Letters::grants))]
pub(crate) fn grants(letters: &[u8], operation: u8) -> bool
    ensures { result ≡ grants letters.now operation }
{
    letters.iter().fold(false, |granted, byte| {
        if counts_for(operation, *byte) {
            !is_capital(*byte)
        } else {
            granted
        }
    })
}

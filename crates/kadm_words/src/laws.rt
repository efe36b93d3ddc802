//! Laws of words. They do no work.

ghost use Rattle.std.specs.Prelude.{List, ℕ, ◌≡◌, ◌≤◌, ◌↔◌, Some, length};
ghost use Rattle.kadm_words.specs.Splitting.{words_in};
ghost use Rattle.kadm_words.specs.Words.{AreWithin, SpellsWords};

/// A line has one list of words at most.
pub fn line_has_one_list_of_words()
    ensures { (line : List ℕ) (a b : List (List ℕ)) → SpellsWords a line → SpellsWords b line → a ≡ b }
{}

/// The words that are read from a line are those that spell it.
pub fn words_are_spelled()
    ensures { (line : List ℕ) (words : List (List ℕ)) → (words_in line ≡ Some words) ↔ SpellsWords words line }
{}

/// No word is longer than its line.
pub fn words_are_no_longer_than_their_line()
    ensures { (line : List ℕ) (words : List (List ℕ)) (most : ℕ) → SpellsWords words line → length line ≤ most
        → AreWithin most words }
{}

//! Laws of dumps. They do no work.
ghost use Rattle.std.specs.Prelude.{◌≡◌, ◌++◌, [], List, ℕ, Some, Ok, Err};
ghost use Rattle.dump_text.specs.Firsts.{IsFirstBad};
ghost use Rattle.dump_text.specs.Judged.{BeginsDump, IsDumpText, Said, judged, nothing, said_by};
ghost use Rattle.dump_text.specs.Lines.{lines_of};
ghost use Rattle.dump_text.specs.declared.dumps.Dump.{Dump};

/// What is judged a dump is the text of that dump.
pub fn what_is_judged_a_dump_is_spelled_so()
    ensures { (text : List ℕ) (dump : Dump) → judged text ≡ Ok dump → IsDumpText text dump }
{}

/// The text of a dump is judged that dump.
pub fn what_a_dump_spells_is_judged_that_dump()
    ensures { (text : List ℕ) (dump : Dump) → IsDumpText text dump → judged text ≡ Ok dump }
{}

/// Two dumps never have the same text.
pub fn dumps_have_their_own_texts()
    ensures { (text : List ℕ) (a b : Dump) → IsDumpText text a → IsDumpText text b → a ≡ b }
{}

/// A dump goes on with lines of which none is bad.
pub fn good_lines_begin_a_dump()
    ensures { (text : List ℕ) (s : Said) → (lines_of text).rest ≡ [] → said_by nothing (lines_of text).whole ≡ Some s
        → BeginsDump text }
{}

/// No dump goes on with a text that is bad whatever comes behind it.
pub fn a_bad_text_begins_no_dump()
    ensures { (text : List ℕ) (line : ℕ) → ((rest : List ℕ) → judged (text ++ rest) ≡ Err line) → BeginsDump text → ⊥ }
{}

/// The line that is named is the first at which no dump goes on.
pub fn the_line_named_is_the_first_bad_one()
    ensures { (text : List ℕ) (line : ℕ) → judged text ≡ Err line → IsFirstBad text line }
{}

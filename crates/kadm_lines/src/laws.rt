ghost use Rattle.std.specs.Prelude.{List, ℕ};
ghost use Rattle.kadm_lines.specs.Laws.{IsInputOf};
ghost use Rattle.kadm_lines.specs.Lines.{lines_of};

/// A law, and no work: the lines of an input, one behind the other with their line feeds, are the
/// input, no line holds a line feed, and only the last may lack one behind it.
pub fn lines_are_the_input()
    ensures { (bytes : List ℕ) → IsInputOf bytes (lines_of bytes) }
{}

//! Laws of the lines that a refusal names. They do no work.

ghost use Rattle.std.specs.Prelude.{◌≡◌, ◌+◌, ◌<◌, ℕ, List, get_or, length};
ghost use Rattle.std.specs.List.{flat_map};
ghost use Rattle.dump_text.specs.Dumps.{dump_text, end_line, ended, princ_line, realm_line, row_count};
ghost use Rattle.dump_text.specs.declared.versions.Version.{Version};
ghost use Rattle.kdb_base.specs.declared.moments.Point.{Point};
ghost use Rattle.primary_loading.specs.Lines.{dump_lines, end_place, princ_place, realm_place};
ghost use Rattle.princ_record.specs.declared.princs.Princ.{Princ};
ghost use Rattle.princ_rows.specs.Rows.{RowLists};

/// The text of a dump is these lines, each with its line feed, and each line that a refusal names is what it is called.
pub fn lines_have_their_numbers()
    ensures text { (version : Version) (realm : List ℕ) (point : Point) (rows : RowLists)
        → dump_text version realm point rows ≡ flat_map ended (dump_lines version realm point rows) }
    ensures realm { (version : Version) (realm : List ℕ) (point : Point) (rows : RowLists) (d : List ℕ) (at : ℕ)
        → at + 1 ≡ realm_place → get_or (dump_lines version realm point rows) at d ≡ realm_line realm }
    ensures princ { (version : Version) (realm : List ℕ) (point : Point) (rows : RowLists) (d : List ℕ)
        (e : Princ) (at place : ℕ) → place < length rows.princs → at + 1 ≡ princ_place place
        → get_or (dump_lines version realm point rows) at d ≡ princ_line (get_or rows.princs place e) }
    ensures last { (version : Version) (realm : List ℕ) (point : Point) (rows : RowLists) (d : List ℕ) (at : ℕ)
        → at + 1 ≡ end_place rows → get_or (dump_lines version realm point rows) at d ≡ end_line (row_count rows) }
{}

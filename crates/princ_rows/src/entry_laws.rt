//! Laws of entries. They do no work.

ghost use Rattle.std.specs.Prelude.{◌≡◌, length};
ghost use Rattle.princ_rows.specs.Entries.{logged, entry_len};
ghost use Rattle.princ_rows.specs.declared.entries.Logged.{Logged};

/// The length of an entry in the log is that of its spelling.
pub fn entries_have_their_lengths()
    ensures { (l : Logged) → length (logged l) ≡ entry_len l.entry.op }
{}

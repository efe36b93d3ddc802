//! Laws of what is told. They do no work.

ghost use Rattle.std.specs.Prelude.{◌≡◌, ◌≢◌, ◌<◌, ◌+◌, ◌-◌, ◌++◌, ℕ, Bool, List, [], ◌∷◌, drop, Some};
ghost use Rattle.std.specs.List.{All};
ghost use Rattle.iprop_reply.specs.Polls.{AreHeld, updates_after};
ghost use Rattle.iprop_truths.specs.Blocks.{block_for};
ghost use Rattle.iprop_truths.specs.Polls.{WantsDump, poll_reply};
ghost use Rattle.iprop_truths.specs.Truths.{Has, IsNext, Makes, HoldsFrom, Message, Reply, IsTrueOf};
ghost use Rattle.kdb_base.specs.declared.moments.Point.{Point};
ghost use Rattle.kdb_places.specs.Places.{Place, Contents, base_marker, last_entries};
ghost use Rattle.princ_rows.specs.Entries.{entry_len};
ghost use Rattle.princ_rows.specs.declared.entries.Entry.{Entry};
ghost use Rattle.princ_rows.specs.declared.entries.Op.{Op};

/// Where what is held leads on from a place, the reply to every poll is true of the places.
pub fn polls_are_told_the_truth()
    ensures { (places : List Place) (denied busy : Bool) (asked : Point) (held : List Entry) (c : Contents)
        → HoldsFrom places held c → IsTrueOf places (Reply (poll_reply denied busy asked held)) }
{}

/// A poll is told to take a dump only where no entry that is held has its point.
pub fn dumps_are_wanted_for_lost_points()
    ensures { (denied busy : Bool) (asked : Point) (held : List Entry)
        → WantsDump (poll_reply denied busy asked held).code → All (λ (e : Entry). e.point ≢ asked) held }
{}

/// What is true of places stays true of more of them.
pub fn truths_stay()
    ensures message { (q : Place) (places : List Place) (m : Message) → IsTrueOf places m → IsTrueOf (q ∷ places) m }
    ensures held { (q : Place) (places : List Place) (held : List Entry) (c : Contents) → HoldsFrom places held c
        → HoldsFrom (q ∷ places) held c }
{}

/// A log that begins anew leads on, and it leads on to the place that its next change makes, whatever its size is.
pub fn logs_lead_on()
    ensures anew { (places : List Place) (c : Contents) → Has places c → HoldsFrom places (base_marker c.point ∷ []) c }
    ensures change { (places : List Place) (size : ℕ) (held : List Entry) (c : Contents) (u : Entry) (d : Contents)
        → 0 < size → HoldsFrom places held c → Has places d → Makes c u d → IsNext places c d
        → HoldsFrom places (last_entries size (held ++ u ∷ [])) d }
{}

/// The block for an entry is longer than it, for a gate of one byte stands before it.
pub fn blocks_are_long_enough()
    ensures { (op : Op) (p : Place) → entry_len (Some op) < block_for op p }
{}

/// Where the serials of what is held run on, the updates behind an entry are those from the next serial on.
pub fn updates_stand_behind_a_serial()
    ensures { (first last asked : Point) (entries us : List Entry) → AreHeld first last entries
        → updates_after asked entries ≡ Some us → us ≡ drop (asked.sno + 1 - first.sno) entries }
{}

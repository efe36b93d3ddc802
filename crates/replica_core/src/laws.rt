//! What a crash inside a call of a replica comes to. It does no work.

ghost use Rattle.std.specs.Prelude.{List, Option};
ghost use Rattle.kdb_disk.specs.Files.{Files};
ghost use Rattle.kdb_places.specs.Places.{Place};
ghost use Rattle.replica_core.specs.Opened.{LeavesMade};
ghost use Rattle.replica_core.specs.Opening.{place_found};
ghost use Rattle.replica_steps.specs.Bridges.{MayBePart};
ghost use Rattle.store_files.specs.Found.{recovers};

/// Whatever a crash inside a call leaves is found, at the next opening, to be the place before or one of those that the
/// call makes, so that `tasks_are_events` of replica_steps makes an event of it.
pub fn crashes_are_parts()
    ensures { (place : Option Place) (made : List Place) (files : Files) → LeavesMade place made files
        → MayBePart place made (place_found (recovers files)) }
{}

//! Laws of a replica's run. They do no work.
ghost use Rattle.std.specs.Prelude.{◌≡◌, ◌↔◌, ◌⊎◌, List, ℕ, Option, Some, Result};
ghost use Rattle.iprop_links.specs.Asking.{sent_in};
ghost use Rattle.kdb_base.specs.declared.outcomes.Refusal.{Refusal};
ghost use Rattle.kdb_base.specs.declared.outcomes.Status.{Status as Ended};
ghost use Rattle.kdb_base.specs.declared.outcomes.Status.TheVariants as status;
ghost use Rattle.kdb_places.specs.Places.{Place};
ghost use Rattle.kdb_ports.specs.Links.{Wire};
ghost use Rattle.kprop_runs.specs.Completeness.{Faults, HasCauses, NoneRose, RefusesNothing};
ghost use Rattle.kprop_runs.specs.Fronts.{AreFronts};
ghost use Rattle.kprop_runs.specs.Longs.{GivesTooMuch, RunRoundsEnd};
ghost use Rattle.kprop_runs.specs.Openings.{Opening};
ghost use Rattle.kprop_runs.specs.Runs.{IsRun, RunStops, run_end};
ghost use Rattle.kprop_runs.specs.Words.{AskFor, asked_in};
ghost use Rattle.kprop_runs.specs.declared.words.Asked.{Asked as WhatIsAsked};

use kdb_disk::Disk;

/// What is read of words is what they spell: a name with its realm, a number of rounds and a size.
pub fn words_are_spelled()
    ensures { (words : List (List ℕ)) (asked : WhatIsAsked) → (asked_in words ≡ Some asked) ↔ AskFor words asked }
{}

/// Where a run is stopped, what was sent on all of its connections, one after the other, and what was written are each
/// a front of what is sent and written where nothing stops it.
pub fn stops_are_fronts()
    ensures { (o : Opening) (w : Wire) (taken : Option (List ℕ)) (sent : Option (List (List ℕ))) (out : Option (List ℕ))
        → RunStops o w taken sent out → AreFronts (run_end o w taken) sent out }
{}

/// Completeness: a run by good words, whose opening is not refused and of whose rounds none is, is done, or wants
/// memory, where no count of faults rose and each round came to an end. It is said of any run of `run_replica`, by its
/// clauses `run` and, as causes, `call`, `links`, `writes`, `long` and `no_read`.
pub fn runs_complete<D: Disk>(_before: &D, _after: &D)
    ensures done { (o : Opening) (found : Result Place Refusal) (w : Wire) (taken : Option (List ℕ))
        (told : Option Wire) (out : Option (List ℕ)) (first last : Faults) (result : Ended)
        → IsRun o found w taken (D.view _before.now) (D.view _after.now) told out result
        → HasCauses o w taken (sent_in told) first last result
        → RefusesNothing o w taken → RunRoundsEnd o w taken → NoneRose first last
        → (result ≡ status.Done) ⊎ (result ≡ status.MemoryOut) }
    // Each round comes to an end where no connection gives 4294967296 bytes.
    ensures short { (o : Opening) (w : Wire) (taken : Option (List ℕ)) → (GivesTooMuch w.to_come → ⊥)
        → RunRoundsEnd o w taken }
{}

//! Laws of sessions. They do no work.

ghost use Rattle.std.specs.Prelude.{◌∷◌, List, Option, Some, ℕ};
ghost use Rattle.std.specs.List.{Contains};
ghost use Rattle.kadm_session.specs.Courses.{HasStoppedAfter, MayStop};
ghost use Rattle.session_base.specs.Draws.{Draws};
ghost use Rattle.kadm_session.specs.Events.{ArePerformed, IsReached, ShowsSome};
ghost use Rattle.kadm_session.specs.Runs.{IsOpenAt, RunsTo, RunsToStop};
ghost use Rattle.kadm_session.specs.Steps.{places_made, said};
ghost use Rattle.kadm_session.specs.declared.intake.Asked.{Asked};
ghost use Rattle.kdb_histories.specs.Histories.{HasRoom};
ghost use Rattle.kdb_histories.specs.Seen.{Seen};
ghost use Rattle.kdb_histories.specs.Sites.{Site};
ghost use Rattle.kdb_histories.specs.Stages.{ShowsAt};
ghost use Rattle.kdb_places.specs.Places.{Place};

use kdb_plain::laws::valid_later;

/// Where a session may stop early, what was written is a front of the replies to the first so many commands, and a
/// crash leaves the place after these commands, or one that the next of them makes, of whose reply nothing was written.
pub fn stops_are_fronts()
    ensures { (taken : List ℕ) (commands : List Asked) (draws : Draws) (at : Seen) (out : Option (List ℕ))
        (first : Place) (others : List Place)
        → MayStop (Some taken) commands draws at out first others
        → HasStoppedAfter taken commands draws at out first others }
{}

/// A place that the events of a session's lines reach is the one before them, or one that they make.
pub fn reached_places_are_made()
    ensures { (commands : List Asked) (draws : Draws) (at : Seen) (q : Place) → IsReached commands draws at q
        → Contains (at.place ∷ places_made commands draws at) q }
{}

/// Where the rows show the state, and the log may hold some entry, the rows of each place that the events of a
/// session's lines reach show a valid state.
pub fn reached_places_show_states()
    ensures { (commands : List Asked) (draws : Draws) (at : Seen) (q : Place) → ShowsAt at.place at.state
        → HasRoom at.place → IsReached commands draws at q → ShowsSome q }
{
    valid_later();
}

/// Lines that were performed are events of the history of the primary at which they were asked for: a run of events
/// leads to the open primary behind the last of them. Where they stopped, a run of events leads to a primary that is
/// not open and stands at the place that they reached.
pub fn lines_are_events()
    ensures performed { (s : Site) (commands : List Asked) (draws : Draws) (at : Seen) → IsOpenAt s at
        → ShowsAt at.place at.state → HasRoom at.place
        → ArePerformed commands draws at → RunsTo s (said commands draws at).at }
    ensures reached { (s : Site) (commands : List Asked) (draws : Draws) (at : Seen) (q : Place) → IsOpenAt s at
        → ShowsAt at.place at.state → HasRoom at.place
        → IsReached commands draws at q → RunsToStop s q }
{
    valid_later();
}

//! Laws of histories. They do no work.

ghost use Rattle.std.specs.Prelude.{◌≡◌, Bool, List, [], ◌∷◌};
ghost use Rattle.std.specs.List.{All};
ghost use Rattle.iprop_truths.specs.Truths.{IsOnePerPoint, Message};
ghost use Rattle.kdb_histories.specs.Asks.{Answer, Ask, Enters, outcome, state_by};
ghost use Rattle.kdb_histories.specs.Bridges.{IsReturned, IsStopped};
ghost use Rattle.kdb_histories.specs.Calls.{Call, CallMakes, Performs, ResetCause};
ghost use Rattle.kdb_histories.specs.Histories.{IsOneSeen, all_seen};
ghost use Rattle.kdb_histories.specs.Leaving.{Does, MayReach};
ghost use Rattle.kdb_histories.specs.Sites.{Site, SiteEvent, SiteHolds, SiteRun, Stands, clock_at};
ghost use Rattle.kdb_histories.specs.Sites.{no_site, places_of, state_of, story_of, wants_open};
ghost use Rattle.kdb_histories.specs.Seen.{outcome_at, seen};
ghost use Rattle.kdb_histories.specs.Stages.{Anew, ShowsAt, Stage, fold, onto};
ghost use Rattle.kdb_model.specs.Laws.{IsMoment};
ghost use Rattle.kdb_places.specs.Places.{Place};
ghost use Rattle.kdb_plain.specs.declared.states.State.{State};
ghost use Rattle.princ_rows.specs.Rows.{RowLists};

use kdb_plain::laws::valid_later;

/// What an accepted change leads to is what the history makes of it.
pub fn changes_lead_to_their_states()
    ensures { (rows : RowLists) (ask : Ask) (due : Bool) (s : State) → (outcome rows ask due s).kind ≡ Enters
        → (outcome rows ask due s).state ≡ state_by ask due s }
{}

/// The law of a primary's history. After every list of events, crashes and destroys among them: points have risen; the
/// rows of each place show what all changes up to it come to; each place holds the entries since its base marker in
/// full; every message that was sent is true of the places; and a point names one contents and one state.
pub fn primary_law()
    ensures holds { (events : List SiteEvent) (s : Site) (sent : List Message) → SiteRun no_site [] events s sent
        → SiteHolds s sent }
    ensures states { (events : List SiteEvent) (s : Site) (sent : List Message) → SiteRun no_site [] events s sent
        → IsOneSeen (all_seen (story_of s)) }
    ensures one { (events : List SiteEvent) (s : Site) (sent : List Message) → SiteRun no_site [] events s sent
        → IsOnePerPoint (places_of s) }
{
    valid_later();
}

/// A call is an event by what it says of its place: where it stopped at a place, an event leads to a primary that is
/// not open and stands there; where it returned, one leads to an open primary that stands at its last place.
pub fn calls_are_events()
    ensures stopped { (s : Site) (at : Stands s) (call : Call) (q : Place) → s.up ≡ wants_open call
        → IsMoment (clock_at call) → MayReach at.last.place (state_of s) call q → IsStopped s call q }
    ensures returned { (s : Site) (at : Stands s) (call : Call) (answer : Answer) (q : Place) → s.up ≡ wants_open call
        → IsMoment (clock_at call) → Does at.last.place (state_of s) call answer q → IsReturned s call answer q }
{}

/// A call begins the log anew for its causes alone.
pub fn logs_begin_anew_for_a_cause()
    ensures { (p : Place) (s : State) (call : Call) (answer : Answer) (made : List Stage)
        → CallMakes p s call answer made → All (λ (t : Stage). t.deed ≡ Anew → ResetCause p call made) made }
{}

/// What a history comes to behind a command, a rekeying or a settling is the state that it answered from.
pub fn histories_follow_their_asks()
    ensures { (t : Stage) (older : List Stage) (ask : Ask) (answer : Answer) (made : List Stage)
        → ShowsAt t.place (fold (t ∷ older)) → Performs t.place (fold (t ∷ older)) ask answer made
        → fold (onto made (t ∷ older)) ≡ (outcome_at ask (seen t.place (fold (t ∷ older)))).state }
{}

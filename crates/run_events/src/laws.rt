//! Laws that make events of a primary's history of what a whole run of the program says. They do no work.

ghost use Rattle.std.specs.Prelude.{◌≡◌, ◌≢◌, ◌<◌, ◌⊎◌, [], false, ℕ, Bool, List};
ghost use Rattle.std.specs.Prelude.{Option, Some, Result, Ok, length};
ghost use Rattle.first_rows.specs.Parts.{SpecParts};
ghost use Rattle.kadm_commands.specs.declared.replies.Reply.{Reply};
ghost use Rattle.kadm_keytabs.specs.Renewals.{Renewal};
ghost use Rattle.kadm_keytabs.specs.declared.answers.Answer.{Answer};
ghost use Rattle.kadm_loading.specs.Loads.{LoadEnd, is_refused};
ghost use Rattle.kadm_session.specs.declared.intake.Asked.{Asked as Asks};
ghost use Rattle.kadm_top.specs.Openings.{Adds, AddsNew, Drawn, Ends, Filters, Loads, Makes, Opening, Opens};
ghost use Rattle.kadm_top.specs.Openings.{Renewed, Renewing, Tells};
ghost use Rattle.kadm_top.specs.Run.{RunEnd, RunLeaves, Same, Told, run_end};
ghost use Rattle.kadm_top.specs.Statuses.{Faults, IsRun, OnEnd};
ghost use Rattle.kdb_base.specs.Causes.{Rose};
ghost use Rattle.kdb_base.specs.declared.outcomes.Halt.{Halt as Halts};
ghost use Rattle.kdb_base.specs.declared.outcomes.Status.{Status as Ended};
ghost use Rattle.kdb_disk.specs.Files.{Files};
ghost use Rattle.kdb_histories.specs.Calls.{HasTimeLeft, resized};
ghost use Rattle.kdb_histories.specs.Seen.{Seen};
ghost use Rattle.kdb_histories.specs.Sites.{Site, SiteHolds, state_of, story_of};
ghost use Rattle.kdb_histories.specs.Stages.{ShowsAt, epoch};
ghost use Rattle.kdb_model.specs.Calls.{Call};
ghost use Rattle.kdb_places.specs.Places.{Place, last_entries};
ghost use Rattle.primary_core.specs.Opening.{OpensAt, place_found};
ghost use Rattle.primary_events.specs.At.{StandsFor};
ghost use Rattle.primary_events.specs.Premises.{MayOpenAt};
ghost use Rattle.run_events.specs.Beginning.{Begins, HasOpened};
ghost use Rattle.run_events.specs.Coming.{HasCome, HasHistory, RestsAt, RunsDown};
ghost use Rattle.run_events.specs.Completeness.{EndedTooLong, HasStashOf, IsCaused, IsDoneOrMemoryOut, IsPerformed};
ghost use Rattle.run_events.specs.Completeness.{IsReplyOrMemoryOut, NothingFailed, NothingStopped, RefusesNothing};
ghost use Rattle.run_events.specs.Completeness.{SaysNoRefusal};
ghost use Rattle.run_events.specs.Completeness.{WasTooLong, model_reply};
ghost use Rattle.session_base.specs.Draws.{Draws, moment_in};
ghost use Rattle.store_files.specs.Found.{Found, found_in, recovers};

use dump_text::laws::what_is_judged_a_dump_is_spelled_so;
use kdb_disk::Disk;
use kdb_plain::laws::valid_later;
use primary_events::laws::openings_are_events;
use row_keys::laws::sound_rows_show_one_state;

/// Whatever a crash leaves at some moment of a run comes of the site on which it began: events of the primary's history
/// lead to a site at which no primary is open, and the files stand for what stands there.
pub fn runs_come<D: Disk>(_before: &D)
    // The opening of a database, and what it is asked: the lines of the input, a line of master keys that is given as
    // words, or to begin its log anew.
    ensures asked { (s : Site) (words : List (List ℕ)) (before : Told) (begin : Place) (made : List Place) (at : Seen)
        (asked : Option Asks) (c : Files)
        → Begins s words (D.view _before.now) before (Opens begin made at asked)
        → RunLeaves (Opens begin made at asked) (D.view _before.now) before c → HasCome s c }
    // A load.
    ensures loaded { (s : Site) (words : List (List ℕ)) (before : Told) (begin : Place) (made : List Place) (at : Seen)
        (what : Option LoadEnd) (c : Files)
        → Begins s words (D.view _before.now) before (Loads begin made at what)
        → RunLeaves (Loads begin made at what) (D.view _before.now) before c → HasCome s c }
    // New keys that are added to a keytab.
    ensures renewed { (s : Site) (words : List (List ℕ)) (before : Told) (begin : Place) (made : List Place) (at : Seen)
        (reads : Bool) (what : Renewing) (c : Files)
        → Begins s words (D.view _before.now) before (AddsNew begin made at reads what)
        → RunLeaves (AddsNew begin made at reads what) (D.view _before.now) before c → HasCome s c }
    // A creation.
    ensures created { (s : Site) (words : List (List ℕ)) (before : Told) (spec : SpecParts) (c : Files)
        → Begins s words (D.view _before.now) before (Makes spec) → RunLeaves (Makes spec) (D.view _before.now) before c
        → HasCome s c }
    // An end.
    ensures ended { (s : Site) (words : List (List ℕ)) (before : Told) (c : Files)
        → Begins s words (D.view _before.now) before Ends → RunLeaves Ends (D.view _before.now) before c → HasCome s c }
    // Any of these, and a run that only reads, or is refused.
    ensures any { (s : Site) (words : List (List ℕ)) (before : Told) (o : Opening) (c : Files)
        → Begins s words (D.view _before.now) before o → RunLeaves o (D.view _before.now) before c → HasCome s c }
{
    valid_later();
    sound_rows_show_one_state();
    what_is_judged_a_dump_is_spelled_so();
}

/// A whole run of the program is a run of events of the primary's history: of the disk of before and of that behind it,
/// with what is told, its opening and its status.
pub fn runs_are_events<D: Disk>(_before: &D, _after: &D)
    // Whatever a crash leaves at any moment of it.
    ensures moments { (s : Site) (words : List (List ℕ)) (before after : Told) (o : Opening)
        (result : Ended) (c : Files)
        → Begins s words (D.view _before.now) before o
        → IsRun o (D.view _before.now) (D.view _after.now) before after result
        → (D.view _after.now).left_since (D.view _before.now).moment c → HasCome s c }
    // Whatever a crash leaves behind it, wherever it stopped.
    ensures images { (s : Site) (words : List (List ℕ)) (before after : Told) (o : Opening) (result : Ended) (c : Files)
        → Begins s words (D.view _before.now) before o
        → IsRun o (D.view _before.now) (D.view _after.now) before after result
        → (D.view _after.now).images c → HasCome s c }
    // So the next run may begin behind it, also where it stopped early, was killed, or met a fault.
    ensures rests { (s : Site) (words : List (List ℕ)) (before after : Told) (o : Opening) (result : Ended)
        → Begins s words (D.view _before.now) before o
        → IsRun o (D.view _before.now) (D.view _after.now) before after result
        → RestsAt s (D.view _after.now) }
    // Behind one that went through, one site, from which the next run goes on. One that leaves the disk as it was is to
    // begin on such a disk.
    ensures ended { D.tells
        → (s : Site) (words : List (List ℕ)) (before after : Told) (o : Opening) (result : Ended) (end : RunEnd)
        → Begins s words (D.view _before.now) before o
        → IsRun o (D.view _before.now) (D.view _after.now) before after result
        → ((drawn : Drawn) → end.disk ≡ Same drawn → RunsDown s (D.view _before.now))
        → run_end o before ≡ Some end → OnEnd result (λ _. RunsDown s (D.view _after.now)) }
{
    runs_come(_before);
}

/// What holds of files that stand for what stands at a site: the place to which they recover shows the state that the
/// history comes to, which is valid there, and holds the entries since the last base marker in full. Where files have
/// come of a site, all that happened leads to where they stand.
pub fn sites_hold()
    ensures shows { (s : Site) (c : Files) (p : Place) → HasHistory s → StandsFor s c → recovers c ≡ Ok p
        → ShowsAt p (state_of s) }
    ensures full { (s : Site) (c : Files) (p : Place) → HasHistory s → StandsFor s c → recovers c ≡ Ok p
        → p.held ≡ last_entries p.size (epoch (story_of s)) }
    ensures holds { (s : Site) (h : HasHistory s) → SiteHolds s h.sent }
    ensures comes { (s : Site) (c : Files) → HasHistory s → (h : HasCome s c) → HasHistory h.new }
{
    valid_later();
}

/// Where the files open with the master keys that the history comes to (`primary_events::laws::openings_are_events`, of
/// a stash whose first key that K/M lists is one of them), a run has an opening with these: its words say how the log
/// is to be, and a later time is left where it is to begin anew.
pub fn openings_are_there()
    ensures { (s : Site) (files : Files) (f : Found) (size : Option ℕ) (draws : Draws) → HasHistory s
        → MayOpenAt s files f size 1 (moment_in draws) → OpensAt (place_found f) (state_of s).masters
        → (resized size (moment_in draws) (place_found f) ≢ [] → HasTimeLeft (place_found f))
        → HasOpened s size files draws }
{
    valid_later();
}

/// Completeness: a run of which nothing is refused is done, or wants memory, where no count of faults rose and the
/// input was not too long. It is said of any run of `run_local`: its clause `run` gives the first premise, and its
/// clauses `causes` and `input` the second.
pub fn runs_complete<D: Disk>(_before: &D, _after: &D)
    ensures done { (before after : Told) (o : Opening) (first last : Faults) (result : Ended)
        → IsRun o (D.view _before.now) (D.view _after.now) before after result
        → IsCaused before after first last result
        → RefusesNothing o before → NothingStopped before after first last → IsDoneOrMemoryOut result }
    // Where it is not told how long the input was, its status may be that of one that is too long, and then so many
    // bytes of it were taken.
    ensures unfailed { (before after : Told) (o : Opening) (first last : Faults) (result : Ended)
        → IsRun o (D.view _before.now) (D.view _after.now) before after result
        → IsCaused before after first last result → RefusesNothing o before → NothingFailed first last
        → IsDoneOrMemoryOut result ⊎ EndedTooLong before after result }
    // Where a database is opened and asked, nothing is refused where no reply is a refusal. Neither is anything of a
    // text that is told, of a creation, whose clock and random bytes are told, or of an end.
    ensures lines { (begin : Place) (made : List Place) (at : Seen) (asked : Option Asks) (before : Told)
        → SaysNoRefusal asked before at → RefusesNothing (Opens begin made at asked) before }
    ensures tells { (text : List ℕ) (drawn : Drawn) (before : Told) → RefusesNothing (Tells text drawn) before }
    ensures makes { (spec : SpecParts) (before : Told) (draws : Draws) → before.draws ≡ Some draws
        → RefusesNothing (Makes spec) before }
    ensures ends { (before : Told) → RefusesNothing Ends before }
    // Neither is anything of a load or of a keytab, where what they come to is told, and is no refusal.
    ensures loads { (begin : Place) (made : List Place) (at : Seen) (end : LoadEnd) (before : Told) (draws : Draws)
        → before.draws ≡ Some draws → is_refused end ≡ false
        → RefusesNothing (Loads begin made at (Some end)) before }
    ensures adds { (begin : Place) (made : List Place) (at : Seen) (reads : Bool) (answer : Answer) (before : Told)
        → answer.refused ≡ false → RefusesNothing (Adds begin made at reads (Some answer)) before }
    ensures renews { (begin : Place) (made : List Place) (at : Seen) (reads : Bool) (renewal : Renewal) (before : Told)
        → renewal.answer.refused ≡ false → RefusesNothing (AddsNew begin made at reads (Renewed renewal)) before }
    ensures filters { (answer : Answer) (before : Told) → answer.refused ≡ false
        → RefusesNothing (Filters (Some answer)) before }
    // An input of fewer bytes is not too long.
    ensures short { (before after : Told) (text : List ℕ) → before.left ≡ Some text → length text < 4294967296
        → WasTooLong before after → ⊥ }
{}

/// Completeness of one command: it is answered by the reply of the model's step, in the state that the rows show, or
/// wants memory, where the disk's count of faults did not rise. It is said of any call of `perform` of a primary, by
/// its clauses `does` and `call`.
pub fn commands_complete()
    ensures { (call : Call) (at : Seen) (later : Place) (first last : ℕ) (result : Result Reply Halts)
        → IsPerformed call at later first last result → (Rose first last → ⊥)
        → IsReplyOrMemoryOut (model_reply call at) result }
{}

/// Completeness of openings: what files of a history stand for opens with the master keys that the history comes to, by
/// a stash whose first key that K/M lists is one of them. This is what the clause `complete` of `recover` of a primary
/// asks, by which it then opens, wants memory, or met a fault of the disk.
pub fn histories_open()
    ensures { (s : Site) (c : Files) (f : Found) → HasHistory s → StandsFor s c → found_in c ≡ Ok f
        → HasStashOf (state_of s).masters (place_found f) → OpensAt (place_found f) (state_of s).masters }
{
    valid_later();
    openings_are_events();
}

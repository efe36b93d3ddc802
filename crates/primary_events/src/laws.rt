//! Laws that make events of what the calls of a primary say. They do no work.

ghost use Rattle.std.specs.Prelude.{◌≡◌, ◌+◌, ◌-◌, ◌++◌, ◌∷◌, [], ℕ, false, true, List, Option, Some, None, Ok};
ghost use Rattle.acl_text.specs.declared.rules.AclLine.{AclLine};
ghost use Rattle.first_rows.specs.Creation.{first_state};
ghost use Rattle.first_rows.specs.Parts.{SpecParts};
ghost use Rattle.iprop_truths.specs.Parts.{end_of};
ghost use Rattle.iprop_truths.specs.Polls.{PollReply, poll_reply};
ghost use Rattle.iprop_truths.specs.Pulling.{denies_pull};
ghost use Rattle.iprop_truths.specs.Truths.{Dumped, Message, Reply};
ghost use Rattle.kdb_base.specs.Moment.{Moment};
ghost use Rattle.kdb_base.specs.declared.moments.Point.{Point};
ghost use Rattle.kdb_base.specs.declared.outcomes.Refusal.{Refusal as Refuses};
ghost use Rattle.kdb_base.specs.declared.versions.Master.{Master as Masterly};
ghost use Rattle.kdb_disk.specs.Files.{Files};
ghost use Rattle.kadm_commands.specs.declared.commands.Command.TheVariants.{Stash as StashLine};
ghost use Rattle.kdb_histories.specs.Asks.{Answer, Ask, clock_of};
ghost use Rattle.kdb_histories.specs.Bridges.{IsStopOf};
ghost use Rattle.kdb_histories.specs.Calls.{Call, CallMakes, Load, Loads, Open, Perform, ResetLog, Stash, resized};
ghost use Rattle.kdb_histories.specs.Histories.{IsStory};
ghost use Rattle.kdb_histories.specs.Leaving.{Does};
ghost use Rattle.kdb_histories.specs.Seen.{after_ask, reset_point, seen};
ghost use Rattle.kdb_histories.specs.Sites.{Calls, Creates, Dumps, Ends, EndsDump, HappensAt, Looks};
ghost use Rattle.kdb_histories.specs.Sites.{Polls, Site, SiteEvent, SiteRun, Stands, clock_at};
ghost use Rattle.kdb_histories.specs.Sites.{no_site, state_of, story_of, wants_open, with_ended};
ghost use Rattle.kdb_histories.specs.Stages.{Filled, ShowsAt, Stage, epoch, fold, onto, places, stage};
ghost use Rattle.kdb_model.specs.Laws.{IsMoment, at_point};
ghost use Rattle.kdb_places.specs.Places.{Contents, Place, contents_of, last_entries};
ghost use Rattle.kdb_plain.specs.declared.states.State.{State};
ghost use Rattle.kdb_worlds.specs.Lawful.{IsAmong, all_acknowledged};
ghost use Rattle.kdb_worlds.specs.Worlds.{Event, Run, World, no_world};
ghost use Rattle.master_keys.specs.Chain.{Lists};
ghost use Rattle.primary_core.specs.Dumping.{with_dumps};
ghost use Rattle.primary_core.specs.Ending.{MayEnd};
ghost use Rattle.primary_core.specs.Opened.{HasState, MayLeave, Opened, command_ask, place_of};
ghost use Rattle.primary_core.specs.Opening.{LeavesOpening, MayOpen, OpensAt, OpensTo, first_place, place_found};
ghost use Rattle.primary_core.specs.Refusing.{dump_refused, is_full};
ghost use Rattle.primary_events.specs.At.{IsAt, LeadsTo, Returns, StandsAt, StandsFor};
ghost use Rattle.primary_events.specs.Coming.{ComesBy, ComesTo, StopsTo, acknowledged_in};
ghost use Rattle.primary_events.specs.Premises.{MayCreate, MayOpenAt};
ghost use Rattle.primary_events.specs.Worlds.{ComesIn};
ghost use Rattle.primary_worlds.specs.Creations.{first_stage};
ghost use Rattle.princ_name.specs.Names.{NameParts};
ghost use Rattle.princ_rows.specs.Rows.{RowLists};
ghost use Rattle.stash_file.specs.Stashes.{IsStash};
ghost use Rattle.stash_file.specs.declared.keys.StashKey.{StashKey as Stashed};
ghost use Rattle.stash_opening.specs.Finding.{first_listed, keys_in, own_record};
ghost use Rattle.store_files.specs.Found.{Found, found_in, recovers};
ghost use Rattle.store_files.specs.Kept.{IsOnDisk};
ghost use Rattle.store_files.specs.Recovery.{Creates as MayMake, Destroys, HasNone, IsLike, LeavesPart, RecoversToNone};

use kdb_disk::Disk;
use kdb_plain::laws::valid_later;
use kdb_worlds::laws::runs_have_histories;
use primary_worlds::laws::stashed_places_open;
use store_files::laws::what_is_kept_is_recovered;

/// What a crash inside a call of an open primary leaves, and what stands after its disk failed, is what a stop inside
/// of the call leaves. Nothing that was acknowledged before is ended by it.
pub fn calls_stop()
    ensures stopped { (o : Opened) (s : Site) (call : Call) (c : Files) → IsAt o s → wants_open call ≡ true
        → IsMoment (clock_at call) → MayLeave (place_of o) (state_of s) call c → StopsTo s c }
    // Stops of this call alone: no other one has done a part of its work.
    ensures own { (o : Opened) (s : Site) (call : Call) (c : Files) → IsAt o s → wants_open call ≡ true
        → IsMoment (clock_at call) → MayLeave (place_of o) (state_of s) call c → ComesBy (IsStopOf call) s c }
    // What is left of the places that a change makes, as of one that was decided before.
    ensures made { (o : Opened) (s : Site) (call : Call) (answer : Answer) (made : List Stage) (c : Files) → IsAt o s
        → wants_open call ≡ true → IsMoment (clock_at call)
        → CallMakes (place_of o) (state_of s) call answer made
        → LeavesPart (place_of o) (places made) c → ComesBy (IsStopOf call) s c }
    // Between two calls it leaves what the primary stands at.
    ensures between { (s : Site) (c : Files) → StandsFor s c → StopsTo s c }
    ensures quiet { (s : Site) (c : Files) → StopsTo s c → ComesTo s c }
{}

/// One stop after another is a stop: what a crash leaves of files that a crash has left.
pub fn stops_join()
    ensures stops { (s : Site) (b c : Files) (h : StopsTo s b) → StopsTo h.new c → StopsTo s c }
    ensures comes { (s : Site) (b c : Files) (h : ComesTo s b) → ComesTo h.new c → ComesTo s c }
{}

/// The end of a database is an event, and so is what a crash inside of it leaves: the database as it was, or none.
pub fn destroys_are_events()
    ensures happens { (s : Site) → Stands s → HappensAt Ends s (with_ended s) None }
    ensures stopped { (o : Opened) (s : Site) (c : Files) → IsAt o s → MayEnd (place_of o) c → ComesTo s c }
    ensures none { (s : Site) (c : Files) → Stands s → HasNone c → ComesTo s c }
{}

/// What files stand for is all that counts, and what a read gives is one of the images: where each image of a disk
/// comes of what happened, so do files that stand for what one of them stood for, and those that are read.
pub fn images_come_of_what_happened<D: Disk>(_disk: &D)
    ensures like { (s : Site) (c : Files) → ((b : Files) → (D.view _disk.now).images b → ComesTo s b)
        → IsLike (D.view _disk.now) c → ComesTo s c }
    ensures like_stopped { (s : Site) (c : Files) → ((b : Files) → (D.view _disk.now).images b → StopsTo s b)
        → IsLike (D.view _disk.now) c → StopsTo s c }
    ensures read { D.tells → (s : Site) → ((b : Files) → (D.view _disk.now).images b → ComesTo s b)
        → ComesTo s (D.view _disk.now).seen }
    ensures read_stopped { D.tells → (s : Site) → ((b : Files) → (D.view _disk.now).images b → StopsTo s b)
        → StopsTo s (D.view _disk.now).seen }
    // An open primary that is on the disk: each image has it.
    ensures kept { (o : Opened) (s : Site) → IsAt o s → IsOnDisk o.kept (D.view _disk.now) → (c : Files)
        → (D.view _disk.now).images c → StopsTo s c }
    // An end.
    ensures destroyed { (s : Site) (c : Files) → Stands s → ((b : Files) → (D.view _disk.now).images b → ComesTo s b)
        → Destroys (D.view _disk.now) c → ComesTo s c }
    ensures ended { (s : Site) (c : Files) → RecoversToNone (D.view _disk.now) → (D.view _disk.now).images c
        → StandsFor (with_ended s) c }
    // A creation that was stopped.
    ensures created { (s : Site) (spec : SpecParts) (clock : Moment) (random : List ℕ) (c : Files)
        → MayCreate s spec clock random → ((b : Files) → (D.view _disk.now).images b → ComesTo s b)
        → MayMake (D.view _disk.now) (first_place spec clock random) c → ComesTo s c }
    // An opening of files that are read, which came of what happened.
    ensures opened { (s : Site) (c : Files) (h : ComesTo s (D.view _disk.now).seen) (f : Found) (size : Option ℕ)
        (room : ℕ) (clock : Moment) → ((b : Files) → (D.view _disk.now).images b → ComesTo s b)
        → MayOpenAt h.new (D.view _disk.now).seen f size room clock
        → MayOpen (D.view _disk.now) (found_in (D.view _disk.now).seen) size clock c → ComesTo s c }
    ensures opened_stopped { (s : Site) (c : Files) (h : StopsTo s (D.view _disk.now).seen) (f : Found)
        (size : Option ℕ) (room : ℕ) (clock : Moment) → ((b : Files) → (D.view _disk.now).images b → StopsTo s b)
        → MayOpenAt h.new (D.view _disk.now).seen f size room clock
        → MayOpen (D.view _disk.now) (found_in (D.view _disk.now).seen) size clock c → StopsTo s c }
{
    what_is_kept_is_recovered(_disk);
}

/// A call that returned is an event that leads to the open primary behind it.
pub fn calls_return()
    ensures made { (o new : Opened) (s : Site) (call : Call) (answer : Answer) (made : List Stage) → IsAt o s
        → wants_open call ≡ true → IsMoment (clock_at call)
        → CallMakes (place_of o) (state_of s) call answer made → place_of new ≡ end_of (place_of o) (places made)
        → HasState new (fold (onto made (story_of s)))
        → (new.dumps ≡ o.dumps) × (new.room ≡ o.room) → new.kept.broken ≡ false
        → LeadsTo s (Calls call answer made) None new }
    // A command, a principal that is rekeyed at once, and work that is settled.
    ensures asked { (o new : Opened) (s : Site) (ask : Ask) (answer : Answer) → IsAt o s → IsMoment (clock_of ask)
        → Does (place_of o) (state_of s) (Perform ask) answer (place_of new)
        → HasState new (after_ask ask (seen (place_of o) (state_of s))).state
        → (new.dumps ≡ o.dumps) × (new.room ≡ o.room) → new.kept.broken ≡ false → Returns s (Perform ask) answer new }
    // The command `stash`, behind which the primary has the state of before.
    ensures stash_line { (o new : Opened) (s : Site) (client : NameParts) (access : Option (List AclLine))
        (clock : Moment) (random : List ℕ) (answer : Answer) → IsAt o s → IsMoment clock
        → Does (place_of o) (state_of s) (Perform (command_ask client access StashLine clock random)) answer
        (place_of new) → HasState new (state_of s)
        → (new.dumps ≡ o.dumps) × (new.room ≡ o.room) → new.kept.broken ≡ false
        → Returns s (Perform (command_ask client access StashLine clock random)) answer new }
    ensures stashed { (o new : Opened) (s : Site) (clock : Moment) (answer : Answer) → IsAt o s → IsMoment clock
        → Does (place_of o) (state_of s) (Stash clock) answer (place_of new)
        → HasState new (state_of s) → (new.dumps ≡ o.dumps) × (new.room ≡ o.room) → new.kept.broken ≡ false
        → Returns s (Stash clock) answer new }
    ensures reset { (o new : Opened) (s : Site) (clock : Moment) (answer : Answer) → IsAt o s → IsMoment clock
        → Does (place_of o) (state_of s) (ResetLog clock) answer (place_of new)
        → HasState new (at_point (reset_point clock (place_of o)) (state_of s)) → (new.dumps ≡ o.dumps)
        × (new.room ≡ o.room) → new.kept.broken ≡ false → Returns s (ResetLog clock) answer new }
    ensures loaded { (o new : Opened) (s : Site) (rows : RowLists) (clock : Moment) (answer : Answer) (state : State)
        → IsAt o s → IsMoment clock
        → Loads (place_of o) rows clock (stage (place_of new) (Filled state) ∷ []) → HasState new state
        → (new.dumps ≡ o.dumps) × (new.room ≡ o.room) → new.kept.broken ≡ false
        → LeadsTo s (Calls (Load rows clock) answer (stage (place_of new) (Filled state) ∷ [])) None new }
{}

/// A creation that returned is an event that leads to the primary that it gives, and one that stopped leaves its place
/// or no database.
pub fn creations_are_events()
    ensures returned { (o : Opened) (s : Site) (spec : SpecParts) (clock : Moment) (random : List ℕ)
        → MayCreate s spec clock random → place_of o ≡ first_place spec clock random
        → HasState o (first_state spec clock random) → (o.dumps ≡ 0) × (o.room ≡ 1) → o.kept.broken ≡ false
        → LeadsTo s (Creates (first_stage spec clock random) true) None o }
    ensures stopped { (s : Site) (spec : SpecParts) (clock : Moment) (random : List ℕ) (c : Files)
        → MayCreate s spec clock random → recovers c ≡ Ok (first_place spec clock random) → ComesTo s c }
    ensures none { (s : Site) (c : Files) → s.history ≡ [] → HasNone c → StopsTo s c }
{}

/// An opening that returned is an event that leads to the primary that it gives, if its master keys are those that the
/// history comes to; one that stopped leaves the place that was found, or that of the log begun anew.
pub fn openings_are_events()
    ensures returned { (o : Opened) (s : Site) (files : Files) (f : Found) (size : Option ℕ) (room : ℕ) (clock : Moment)
        (answer : Answer) → IsStory (story_of s)
        → MayOpenAt s files f size room clock → OpensTo (found_in files) size clock o → o.masters ≡ (state_of s).masters
        → (o.dumps ≡ 0) × (o.room ≡ room) → o.kept.broken ≡ false
        → LeadsTo s (Calls (Open size room clock) answer (resized size clock (place_found f))) None o }
    ensures stopped { (s : Site) (files c : Files) (f : Found) (size : Option ℕ) (room : ℕ) (clock : Moment)
        → MayOpenAt s files f size room clock
        → LeavesOpening (place_found f) size clock c → StopsTo s c }
    // By stops of this opening alone.
    ensures own { (s : Site) (files c : Files) (f : Found) (size : Option ℕ) (room : ℕ) (clock : Moment)
        → MayOpenAt s files f size room clock
        → LeavesOpening (place_found f) size clock c → ComesBy (IsStopOf (Open size room clock)) s c }
    // What files that come of what happened are found to be is the place that then stands.
    ensures stands { (s : Site) (files : Files) (p : Place) → StandsFor s files → recovers files ≡ Ok p → StandsAt s p }
    // Where the first key of the stash that K/M lists is one of the master keys that the history comes to, these are
    // the ones that it opens with.
    ensures masters { (s : Site) (at : Stands s) (text : List ℕ) (keys : List Stashed) (found : Masterly)
        → IsStory (story_of s) → at.last.place.stash ≡ Some text → IsStash text keys
        → first_listed (keys_in (own_record at.last.place.realm at.last.place.rows)) keys ≡ Some found
        → Lists (state_of s).masters found.version found.key → OpensAt at.last.place (state_of s).masters }
{
    valid_later();
    stashed_places_open();
}

/// What a primary answers with no change is an event too: what it tells a poll and a dump is what a history says was
/// sent.
pub fn answers_are_events()
    ensures polled { (o : Opened) (s : Site) (client : NameParts) (access : Option (List AclLine)) (asked : Point)
        (r : PollReply) → IsAt o s
        → r ≡ poll_reply (denies_pull access client) (is_full o) asked (place_of o).held
        → LeadsTo s (Polls client access asked) (Some (Reply r)) o }
    ensures dumped { (o : Opened) (s : Site) (client : NameParts) (access : Option (List AclLine)) (contents : Contents)
        → IsAt o s
        → ((why : Refuses) → dump_refused o client access ≡ Some why → ⊥) → contents ≡ contents_of (place_of o)
        → LeadsTo s (Dumps client access) (Some (Dumped contents)) (with_dumps (o.dumps + 1) o) }
    ensures dump_ended { (o : Opened) (s : Site) → IsAt o s → LeadsTo s EndsDump None (with_dumps (o.dumps - 1) o) }
    // What only reads, and what is refused.
    ensures looked { (o : Opened) (s : Site) → IsAt o s → LeadsTo s Looks None o }
    // What wants memory: its place, its master keys and its dumps are those of before, and nothing has closed it.
    ensures wanted { (o new : Opened) (s : Site) → IsAt o s → place_of new ≡ place_of o → new.masters ≡ o.masters
        → (new.dumps ≡ o.dumps) × (new.room ≡ o.room)
        → new.kept.broken ≡ false → LeadsTo s Looks None new }
    ensures looked_closed { (s : Site) → HappensAt Looks s s None }
{}

/// Whatever happened to a primary, and wherever it then stopped: what its files recover to shows what the history comes
/// to, holds the entries since the last base marker in full, and what was acknowledged stands in the history, in order.
pub fn recovered_primaries_show()
    ensures shows { (events : List SiteEvent) (s : Site) (sent : List Message) (c : Files) (p : Place)
        → SiteRun no_site [] events s sent → (h : ComesTo s c) → recovers c ≡ Ok p → ShowsAt p (state_of h.new) }
    ensures full { (events : List SiteEvent) (s : Site) (sent : List Message) (c : Files) (p : Place)
        → SiteRun no_site [] events s sent → (h : ComesTo s c) → recovers c ≡ Ok p
        → p.held ≡ last_entries p.size (epoch (story_of h.new)) }
    ensures acknowledged { (events : List SiteEvent) (s : Site) (sent : List Message) (c : Files)
        → SiteRun no_site [] events s sent → (h : ComesTo s c)
        → IsAmong (acknowledged_in (events ++ h.events) []) h.new.history }
    // Where nothing was ended, that is all that was acknowledged before it stopped.
    ensures stopped_shows { (events : List SiteEvent) (s : Site) (sent : List Message) (c : Files) (p : Place)
        → SiteRun no_site [] events s sent → (h : StopsTo s c) → recovers c ≡ Ok p → ShowsAt p (state_of h.new) }
    ensures stopped_full { (events : List SiteEvent) (s : Site) (sent : List Message) (c : Files) (p : Place)
        → SiteRun no_site [] events s sent → (h : StopsTo s c) → recovers c ≡ Ok p
        → p.held ≡ last_entries p.size (epoch (story_of h.new)) }
    ensures stopped_acknowledged { (events : List SiteEvent) (s : Site) (sent : List Message) (c : Files)
        → SiteRun no_site [] events s sent → (h : StopsTo s c) → IsAmong (acknowledged_in events []) h.new.history }
{
    valid_later();
}

/// A history of a world's primary is a run of the world, by which nothing else changes. So the world goes on behind a
/// crash of its primary, and from where a call or an opening of it leads.
pub fn histories_are_runs()
    ensures runs { (w : World) (own : List SiteEvent) (s : Site) (sent : List Message)
        → SiteRun w.site w.sent own s sent → ComesIn w own s sent }
    // Where files come of it, with nothing sent.
    ensures comes { (w : World) (c : Files) (h : ComesTo w.site c) → ComesIn w h.events h.new w.sent }
{}

/// The same in a world: whatever happened in it, and wherever its primary then stopped, what the primary's files
/// recover to shows what its history comes to, in full, and what was acknowledged since its last creation stands in it.
pub fn recovered_in_worlds()
    // Whatever came of it, an end or a creation that was stopped too.
    ensures shows { (events : List Event) (w : World) (c : Files) (p : Place) → Run no_world events w
        → (h : ComesTo w.site c) → recovers c ≡ Ok p → ShowsAt p (state_of h.new) }
    ensures full { (events : List Event) (w : World) (c : Files) (p : Place) → Run no_world events w
        → (h : ComesTo w.site c) → recovers c ≡ Ok p → p.held ≡ last_entries p.size (epoch (story_of h.new)) }
    ensures acknowledged { (events : List Event) (w : World) (c : Files) → Run no_world events w
        → (h : ComesTo w.site c) → IsAmong (acknowledged_in h.events (all_acknowledged events [])) h.new.history }
    // Where nothing was ended, that is all that was acknowledged before it stopped.
    ensures stopped_shows { (events : List Event) (w : World) (c : Files) (p : Place) → Run no_world events w
        → (h : StopsTo w.site c) → recovers c ≡ Ok p → ShowsAt p (state_of h.new) }
    ensures stopped_full { (events : List Event) (w : World) (c : Files) (p : Place) → Run no_world events w
        → (h : StopsTo w.site c) → recovers c ≡ Ok p → p.held ≡ last_entries p.size (epoch (story_of h.new)) }
    ensures stopped_acknowledged { (events : List Event) (w : World) (c : Files) → Run no_world events w
        → (h : StopsTo w.site c) → IsAmong (all_acknowledged events []) h.new.history }
    // And where one call alone was stopped.
    ensures own_shows { (call : Call) (events : List Event) (w : World) (c : Files) (p : Place) → Run no_world events w
        → (h : ComesBy (IsStopOf call) w.site c) → recovers c ≡ Ok p → ShowsAt p (state_of h.new) }
    ensures own_full { (call : Call) (events : List Event) (w : World) (c : Files) (p : Place)
        → Run no_world events w → (h : ComesBy (IsStopOf call) w.site c) → recovers c ≡ Ok p
        → p.held ≡ last_entries p.size (epoch (story_of h.new)) }
    ensures own_acknowledged { (call : Call) (events : List Event) (w : World) (c : Files) → Run no_world events w
        → (h : ComesBy (IsStopOf call) w.site c) → IsAmong (all_acknowledged events []) h.new.history }
{
    valid_later();
    runs_have_histories();
}

//! Laws of worlds. They do no work.

ghost use Rattle.std.specs.Prelude.{◌≡◌, ◌≢◌, ◌≤◌, ℕ, Bool, List, Contains, Option, Some};
ghost use Rattle.acl_text.specs.declared.rules.AclLine.{AclLine};
ghost use Rattle.iprop_truths.specs.Blocks.{block_for};
ghost use Rattle.iprop_truths.specs.Polls.{PollReply, WantsDump};
ghost use Rattle.iprop_truths.specs.Truths.{Message, Reply};
ghost use Rattle.kdb_base.specs.Moment.{Moment};
ghost use Rattle.kdb_base.specs.declared.moments.Point.{Point};
ghost use Rattle.kdb_histories.specs.Asks.{Answer, Ask};
ghost use Rattle.kdb_histories.specs.Calls.{Load, Open, Perform, ResetLog, size_or};
ghost use Rattle.kdb_histories.specs.Histories.{all_seen};
ghost use Rattle.kdb_histories.specs.Seen.{Seen};
ghost use Rattle.kdb_histories.specs.Sites.{Called, Polls, Site, SiteEvent, state_of, story_of};
ghost use Rattle.kdb_histories.specs.Stages.{ShowsAt, Stage};
ghost use Rattle.kdb_places.specs.Places.{Place, point_of};
ghost use Rattle.kdb_plain.specs.declared.states.State.{State};
ghost use Rattle.kdb_worlds.specs.Worlds.{AtPrimary, AtReplica, Event, Happens, Run, World, no_world};
ghost use Rattle.princ_name.specs.Names.{NameParts};
ghost use Rattle.princ_rows.specs.Entries.{entry_len};
ghost use Rattle.princ_rows.specs.Rows.{RowLists};
ghost use Rattle.princ_rows.specs.declared.entries.Op.{Op};
ghost use Rattle.replica_steps.specs.Replicas.{NodePolls, ReplicaEvent};
ghost use Rattle.world_laws.specs.Causes.{AddsStages, BeginsLoaded, BeginsLog, ChangesBy};
ghost use Rattle.world_laws.specs.Examples.{LeadsToUpdate, added_place, example_adding, example_events, example_place};
ghost use Rattle.world_laws.specs.Lost.{IsLost, IsLostAt};
ghost use Rattle.world_laws.specs.Opened.{IsOpenedByEach, IsReplicaOpened};
ghost use Rattle.world_laws.specs.Strict.{IsStrict};

use kdb_plain::laws::valid_later;
use kdb_worlds::laws::world_law;

/// A dump is wanted for lost points alone. Where a poll is told to take one, now or when one may be begun, the primary
/// holds no entry with the asked point, and none of the last ones since the base marker has it; and of a replica that
/// has a place and is polled, the place holds none.
pub fn dumps_are_for_lost_points()
    ensures primary { (events : List Event) (w new : World)
        (client : NameParts) (access : Option (List AclLine)) (asked : Point) (r : PollReply)
        → Run no_world events w → Happens (AtPrimary (Polls client access asked) (Some (Reply r))) w new
        → WantsDump r.code → IsLostAt w.site asked }
    ensures replica { (w new : World) (i : ℕ) (client : NameParts) (access : Option (List AclLine))
        (asked : Point) (r : PollReply) (p : Place) → (w.replicas i).place ≡ Some p
        → Happens (AtReplica i (NodePolls client access asked) (Some (Reply r))) w new → WantsDump r.code
        → IsLost asked p.held }
{
    world_law();
}

/// The log is begun anew for its causes alone. Whatever happens at the primary adds its stages to the story, and
/// whichever of them begins the log anew is of a call, which returned or was stopped, and has one of the causes of that
/// call; what happens at a replica leaves the primary as it is.
pub fn logs_are_begun_anew_for_their_causes()
    ensures primary { (event : SiteEvent) (said : Option Message) (w new : World) → Happens (AtPrimary event said) w new
        → AddsStages event w.site new.site }
    ensures replica { (i : ℕ) (event : ReplicaEvent) (said : Option Message) (w new : World)
        → Happens (AtReplica i event said) w new → new.site ≡ w.site }
{}

/// Each cause begins the log anew: whatever call of a primary meets it, whether it returns or is stopped, makes the log
/// begun anew first of all. So where a reset is due and not made, no event has happened.
pub fn causes_begin_the_log_anew()
    // A change after the greatest serial.
    ensures last { (ask : Ask) (answer : Answer) (made done : List Stage) (op : Op) (up : Bool)
        (said : Option Message) (old new : Site) (e : Called old new (Perform ask) answer made done up said)
        → ChangesBy ask op e.at.last.place (state_of old) → (point_of e.at.last.place).sno ≡ 4294967295
        → BeginsLog e.at.last.place e.at.last.place.size (block_for op e.at.last.place) made }
    // A change whose entry has no room in the block.
    ensures long { (ask : Ask) (answer : Answer) (made done : List Stage) (op : Op) (up : Bool)
        (said : Option Message) (old new : Site) (e : Called old new (Perform ask) answer made done up said)
        → ChangesBy ask op e.at.last.place (state_of old) → e.at.last.place.block ≤ entry_len (Some op)
        → BeginsLog e.at.last.place e.at.last.place.size (block_for op e.at.last.place) made }
    // A log begun anew on request.
    ensures asked { (clock : Moment) (answer : Answer) (made done : List Stage) (up : Bool)
        (said : Option Message) (old new : Site) (e : Called old new (ResetLog clock) answer made done up said)
        → BeginsLog e.at.last.place e.at.last.place.size e.at.last.place.block made }
    ensures loaded { (rows : RowLists) (clock : Moment) (answer : Answer) (made done : List Stage) (up : Bool)
        (said : Option Message) (old new : Site) (e : Called old new (Load rows clock) answer made done up said)
        → BeginsLoaded e.at.last.place rows made }
    // An opening of files of format 1.
    ensures older { (size : Option ℕ) (room : ℕ) (clock : Moment) (answer : Answer) (made done : List Stage) (up : Bool)
        (said : Option Message) (old new : Site) (e : Called old new (Open size room clock) answer made done up said)
        → e.at.last.place.format ≢ 2
        → BeginsLog e.at.last.place (size_or size e.at.last.place) e.at.last.place.block made }
    // An opening with another log size.
    ensures sized { (size room : ℕ) (clock : Moment) (answer : Answer) (made done : List Stage) (up : Bool)
        (said : Option Message) (old new : Site)
        (e : Called old new (Open (Some size) room clock) answer made done up said)
        → size ≢ e.at.last.place.size → BeginsLog e.at.last.place size e.at.last.place.block made }
{}

/// Points rise strictly along the primary's story, from one database to the next too: each stage stands at a later
/// point than the one before it, but for a stash, which keeps the point.
pub fn points_rise_strictly()
    ensures { (events : List Event) (w : World) → Run no_world events w → IsStrict (story_of w.site) }
{
    valid_later();
}

/// Every listed master key opens every key. At each place that the primary ever stood at, at the place of each replica,
/// and at any place whose rows show a state: each master key of the state opens all of them, with K/M's record of these
/// rows.
pub fn each_listed_master_key_opens_all()
    ensures primary { (events : List Event) (w : World) (a : Seen) → Run no_world events w
        → Contains (all_seen (story_of w.site)) a → IsOpenedByEach a.place a.state }
    ensures replicas { (events : List Event) (w : World) (i : ℕ) (p : Place) → Run no_world events w
        → (w.replicas i).place ≡ Some p → IsReplicaOpened w p }
    // Whatever place it is, as one to which the files recover that a crash leaves.
    ensures shown { (p : Place) (s : State) → ShowsAt p s → IsOpenedByEach p s }
{
    world_law();
}

/// There is such a run.
pub fn runs_are_there()
    ensures { LeadsToUpdate example_events (added_place example_adding example_place) }
{
    valid_later();
}

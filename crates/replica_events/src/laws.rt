//! Laws that make events of what the calls of a replica say. They do no work.

ghost use Rattle.std.specs.Prelude.{◌≡◌, ◌<◌, ℕ, false, true, List, Option, Some, Ok};
ghost use Rattle.iprop_truths.specs.Truths.{Message};
ghost use Rattle.kdb_disk.specs.Files.{Files};
ghost use Rattle.kdb_histories.specs.Sites.{places_of};
ghost use Rattle.kdb_places.specs.Places.{Place};
ghost use Rattle.kdb_worlds.specs.Lawful.{IsReplicaOf};
ghost use Rattle.kdb_worlds.specs.Worlds.{Event, Run, World, no_world};
ghost use Rattle.primary_answers.specs.Listing.{told_reply as reply_sent};
ghost use Rattle.princ_rows.specs.Replies.{Reply};
ghost use Rattle.replica_core.specs.Opened.{IsHeldOn, LeavesMade, Opened, place_of};
ghost use Rattle.replica_core.specs.Opening.{AnswersOpened, MayOpen};
ghost use Rattle.replica_core.specs.Taking.{told_reply};
ghost use Rattle.replica_events.specs.At.{FallsBy, FallsTo, IsFallOf, IsReplicaAt, LeadsOn, PlaceIn};
ghost use Rattle.replica_events.specs.Falls.{FallsIn};
ghost use Rattle.replica_steps.specs.Bridges.{IsTaskStopped, MayBePart};
ghost use Rattle.replica_steps.specs.Replicas.{Does, DoesPart, IsCopy, Reopen, Replica, Task, WasSent};
ghost use Rattle.replica_steps.specs.Replicas.{makes_of, place_after, task_makes, wants_open};
ghost use Rattle.store_files.specs.Found.{recovers};
ghost use Rattle.store_files.specs.Recovery.{IsLike};
ghost use Rattle.world_laws.specs.Opened.{IsReplicaOpened};

use kdb_disk::Disk;
use kdb_plain::laws::valid_later;
use kdb_worlds::laws::world_law;
use replica_steps::laws::tasks_are_events;
use store_files::laws::what_is_kept_is_recovered;
use world_laws::laws::each_listed_master_key_opens_all;

/// A reply or a dump that was taken is an event that leads to the open replica behind it; one that stopped for want of
/// memory is one that leads to a replica that is still open. What was sent before may come at any time.
pub fn tasks_return()
    ensures done { (sent : List Message) (o new : Opened) (r : Replica) (task : Task) → IsReplicaAt o r
        → wants_open task ≡ true → WasSent sent task
        → place_of new ≡ place_after (place_of o) (task_makes o.size (place_of o) task) → new.size ≡ o.size
        → LeadsOn sent r (Does task) new }
    ensures stopped { (sent : List Message) (o new : Opened) (r : Replica) (task : Task) → IsReplicaAt o r
        → wants_open task ≡ true → WasSent sent task
        → MayBePart (place_of o) (task_makes o.size (place_of o) task) (place_of new) → new.size ≡ o.size
        → (part : ℕ) × LeadsOn sent r (DoesPart task part true) new }
    // An opening of the files that it has.
    ensures opened { (sent : List Message) (o : Opened) (r : Replica) (c : Files) (n : ℕ) → r.up ≡ false
        → PlaceIn r.place c → 0 < n
        → AnswersOpened n (Ok o) (recovers c) → o.size ≡ n → LeadsOn sent r (Does (Reopen n)) o }
{
    tasks_are_events();
}

/// What a crash inside a call of a replica leaves is what a stop inside of the call leaves, and one fall after another
/// is a fall.
pub fn tasks_stop()
    ensures stopped { (sent : List Message) (o : Opened) (r : Replica) (task : Task) (c : Files) → IsReplicaAt o r
        → wants_open task ≡ true → WasSent sent task
        → LeavesMade (place_of o) (task_makes o.size (place_of o) task) c → FallsTo sent r c }
    ensures opening { (sent : List Message) (r : Replica) (n : ℕ) (c : Files) → r.up ≡ false → 0 < n
        → LeavesMade r.place (makes_of r (Reopen n)) c → FallsTo sent r c }
    // Falls of this task alone: no other one, of whatever was sent, has done a part of its work.
    ensures own { (sent : List Message) (o : Opened) (r : Replica) (task : Task) (c : Files) → IsReplicaAt o r
        → wants_open task ≡ true → WasSent sent task
        → LeavesMade (place_of o) (task_makes o.size (place_of o) task) c → FallsBy (IsFallOf task) sent r c }
    ensures own_opening { (sent : List Message) (r : Replica) (n : ℕ) (c : Files) → r.up ≡ false → 0 < n
        → LeavesMade r.place (makes_of r (Reopen n)) c → FallsBy (IsFallOf (Reopen n)) sent r c }
    ensures falls { (task : Task) (sent : List Message) (r : Replica) (c : Files) → FallsBy (IsFallOf task) sent r c
        → FallsTo sent r c }
    // Between two calls it leaves what the replica stands at.
    ensures between { (sent : List Message) (r : Replica) (c : Files) → PlaceIn r.place c → FallsTo sent r c }
    ensures joined { (sent : List Message) (r : Replica) (b c : Files) (h : FallsTo sent r b) → FallsTo sent h.new c
        → FallsTo sent r c }
{
    tasks_are_events();
}

/// Where each image of a disk comes of what happened to a replica, so do files that stand for what one of them stood
/// for, and those that are read.
pub fn images_come_of_falls<D: Disk>(_disk: &D)
    ensures like { (sent : List Message) (r : Replica) (c : Files)
        → ((b : Files) → (D.view _disk.now).images b → FallsTo sent r b) → IsLike (D.view _disk.now) c
        → FallsTo sent r c }
    ensures read { D.tells → (sent : List Message) (r : Replica)
        → ((b : Files) → (D.view _disk.now).images b → FallsTo sent r b) → FallsTo sent r (D.view _disk.now).seen }
    // An open replica that is on the disk: each image has it.
    ensures kept { (sent : List Message) (o : Opened) (r : Replica) → IsReplicaAt o r
        → IsHeldOn o.database (D.view _disk.now) → (c : Files) → (D.view _disk.now).images c → FallsTo sent r c }
    // An opening of files that are read, which came of what happened.
    ensures opened { (sent : List Message) (r : Replica) (c : Files) (h : FallsTo sent r (D.view _disk.now).seen)
        (n : ℕ) → ((b : Files) → (D.view _disk.now).images b → FallsTo sent r b)
        → 0 < n → MayOpen (D.view _disk.now) n (recovers (D.view _disk.now).seen) c → FallsTo sent r c }
{
    tasks_are_events();
    what_is_kept_is_recovered(_disk);
}

/// Whatever happened in a world, and wherever one of its replicas then stopped: what the replica's files recover to has
/// the contents of a place of the primary and shows what all changes up to it come to.
pub fn recovered_replicas_show()
    // The fall is a run of the world, by which nothing but this replica changes. So others may fall behind it.
    ensures falls { (w : World) (i : ℕ) (c : Files) (h : FallsTo w.sent (w.replicas i) c) → FallsIn w i h.new }
    ensures own_falls { (task : Task) (w : World) (i : ℕ) (c : Files)
        (h : FallsBy (IsFallOf task) w.sent (w.replicas i) c) → FallsIn w i h.new }
    ensures shows { (events : List Event) (w : World) (i : ℕ) (c : Files) (p : Place) → Run no_world events w
        → FallsTo w.sent (w.replicas i) c → recovers c ≡ Ok p → IsReplicaOf w p }
    // What it holds leads up to these contents from a place of the primary.
    ensures held { (events : List Event) (w : World) (i : ℕ) (c : Files) (p : Place) → Run no_world events w
        → FallsTo w.sent (w.replicas i) c → recovers c ≡ Ok p → IsCopy (places_of w.site) p }
    // Each listed master key opens every key.
    ensures opened { (events : List Event) (w : World) (i : ℕ) (c : Files) (p : Place) → Run no_world events w
        → FallsTo w.sent (w.replicas i) c → recovers c ≡ Ok p → IsReplicaOpened w p }
{
    valid_later();
    world_law();
    each_listed_master_key_opens_all();
}

/// The reply that a primary tells is the one that a replica is told.
pub fn replies_are_told_alike()
    ensures { (r : Reply) → reply_sent r ≡ told_reply r }
{}

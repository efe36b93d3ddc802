//! Laws of replicas. They do no work.

ghost use Rattle.std.specs.Prelude.{◌≡◌, ◌<◌, ℕ, Bool, List, [], ◌∷◌, Option, Some};
ghost use Rattle.iprop_truths.specs.Polls.{PollReply, updates_here};
ghost use Rattle.iprop_truths.specs.Truths.{AreTrue, IsOnePerPoint, IsTrueOf, Message, Reply};
ghost use Rattle.kdb_places.specs.Places.{Place, point_of};
ghost use Rattle.replica_steps.specs.Bridges.{IsTaskDone, IsTaskStopped, MayBePart};
ghost use Rattle.replica_steps.specs.Replicas.{HappensTo, IsCopy, Replica, ReplicaEvent, ReplicaHolds, ReplicaRun};
ghost use Rattle.replica_steps.specs.Replicas.{Task, WasSent, makes_of, no_replica, place_after, wants_open};
ghost use Rattle.replica_steps.specs.Wholes.{IsTakenWhole};

/// The law of a replica. After every list of events, where all that was sent is true of the places of some histories
/// and a point names one place's contents: a replica with a database has the contents of a place, and what it holds
/// leads up to them.
pub fn replica_law()
    ensures holds { (places : List Place) (sent : List Message) (events : List ReplicaEvent) (r : Replica)
        → IsOnePerPoint places → AreTrue places sent → ReplicaRun sent no_replica events r → ReplicaHolds places r }
    ensures event { (places : List Place) (sent : List Message) (event : ReplicaEvent) (old new : Replica)
        (said : Option Message) → IsOnePerPoint places → AreTrue places sent → ReplicaHolds places old
        → HappensTo sent event old new said → ReplicaHolds places new }
    ensures more { (q : Place) (places : List Place) (r : Replica) → ReplicaHolds places r
        → ReplicaHolds (q ∷ places) r }
{}

/// What a replica tells others is true.
pub fn nodes_tell_the_truth()
    ensures { (places : List Place) (sent : List Message) (event : ReplicaEvent) (old new : Replica)
        (said : Option Message) (m : Message) → ReplicaHolds places old → HappensTo sent event old new said
        → said ≡ Some m → IsTrueOf places m }
{}

/// A true reply with updates from a replica's own point is taken whole: no update is missing or refused, and the
/// replica stands where they lead, with the contents of the place there.
pub fn replies_are_taken_whole()
    ensures { (places : List Place) (size : ℕ) (p : Place) (r : PollReply) → IsOnePerPoint places → 0 < size
        → IsCopy places p → IsTrueOf places (Reply r) → r.code ≡ updates_here → r.asked ≡ point_of p
        → IsTakenWhole places size p r }
{}

/// A call of a replica is an event by what it says of its place: where it stopped at a place that its task makes, an
/// event leads there; where it was done, one leads to the last of them.
pub fn tasks_are_events()
    ensures stopped { (sent : List Message) (r : Replica) (task : Task) (up : Bool) (after : Option Place)
        → r.up ≡ wants_open task → WasSent sent task → MayBePart r.place (makes_of r task) after
        → IsTaskStopped sent r task up after }
    ensures done { (sent : List Message) (r : Replica) (task : Task) (after : Option Place) → r.up ≡ wants_open task
        → WasSent sent task → after ≡ place_after r.place (makes_of r task) → IsTaskDone sent r task after }
{}

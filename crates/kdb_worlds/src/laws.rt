//! Laws of worlds. They do no work.

ghost use Rattle.std.specs.Prelude.{◌≡◌, List, [], ◌∷◌};
ghost use Rattle.kdb_histories.specs.Histories.{IsCreation};
ghost use Rattle.kdb_histories.specs.Sites.{SiteRun, no_site};
ghost use Rattle.kdb_histories.specs.Stages.{Stage};
ghost use Rattle.kdb_worlds.specs.Examples.{LeadsToCopy, first_events};
ghost use Rattle.kdb_worlds.specs.Lawful.{IsAmong, IsLawful, all_acknowledged};
ghost use Rattle.kdb_worlds.specs.Primaries.{sent_by_primary, site_events};
ghost use Rattle.kdb_worlds.specs.Worlds.{Event, Run, World, no_world};
ghost use Rattle.princ_name.specs.Names.{NameParts};

use kdb_plain::laws::valid_later;

/// The law of the whole. After every list of events, crashes inside calls, destroys, and messages that are lost,
/// repeated and in any order among them: the primary's rows show what all its changes come to, and each replica's those
/// of a place of the primary; a point names one contents and one state; a reply with updates is taken whole; and what
/// the primary acknowledged since the last creation stands in its history, in the same order.
pub fn world_law()
    ensures lawful { (events : List Event) (w : World) → Run no_world events w → IsLawful w }
    ensures acknowledged { (events : List Event) (w : World) → Run no_world events w
        → IsAmong (all_acknowledged events []) w.site.history }
{
    valid_later();
}

/// A run of a world is one of its primary: what happened at the primary alone leads to where it is, and it has sent
/// what it sends of this. So every law of a primary's histories holds of a world's primary, whatever its replicas do.
pub fn runs_have_histories()
    ensures { (events : List Event) (w : World) → Run no_world events w
        → SiteRun no_site [] (site_events events) w.site (sent_by_primary events []) }
{}

/// There are such runs: whatever a first creation makes, a dump of it is taken, and a replica loads it.
pub fn worlds_run()
    ensures { (t : Stage) (client : NameParts) → IsCreation [] t → t.place.format ≡ 2
        → LeadsToCopy (first_events t client) t.place }
{}

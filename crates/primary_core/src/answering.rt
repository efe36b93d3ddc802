//! What is answered with no change: names, and polls of replicas.

ghost use Rattle.std.specs.Prelude.{◌≡◌, true, false, Err, IfOk, None, OnOk, Some, option_map};
ghost use Rattle.std.specs.List.{All};
ghost use Rattle.iprop_truths.specs.Polls.{poll_reply};
ghost use Rattle.iprop_truths.specs.Pulling.{denies_pull};
ghost use Rattle.kdb_base.specs.declared.outcomes.Halt.{Halt as Halts};
ghost use Rattle.kdb_base.specs.declared.outcomes.Halt.TheVariants.{MemoryOut as IsMemoryOut};
ghost use Rattle.kdb_base.specs.declared.outcomes.Refusal.{Refusal as Refuses};
ghost use Rattle.kdb_base.specs.declared.outcomes.Refusal.TheVariants.{Closed};
ghost use Rattle.kdb_base.specs.declared.outcomes.Stop.TheVariants as stops;
ghost use Rattle.kdb_plain.specs.Lists.{princ_names};
ghost use Rattle.kdb_plain.specs.declared.states.State.{State};
ghost use Rattle.primary_answers.specs.Listing.{names_told, told_reply};
ghost use Rattle.primary_core.specs.Opened.{HasState, place_of};
ghost use Rattle.primary_core.specs.Opening.{IsRefusedAs};
ghost use Rattle.primary_core.specs.Refusing.{is_full, names_refused, poll_refused};
ghost use Rattle.princ_name.specs.Printed.{is_master};
ghost use Rattle.princ_rows.specs.Rows.{princ_keys};

use crate::primary::Primary;
use acl_text::Acl;
use kadm_commands::NameList;
use kdb_base::{Blob, Halt, Point, Refusal, Stop};
use primary_answers::{bare_reply, denies_pull, list_names, reply_to, setting_denial};
use princ_name::Name;
use princ_rows::{PollReply, ReplyCode};
use std::alloc::Global;

impl Primary {
    // Why the client is not told names: the primary is closed, or `s` on K/M is denied.
    pub(crate) fn admit_setting(
        &self,
        alloc: Global,
        client: &Name,
        acl: Option<&Acl>,
    ) -> Result<(), Stop>
        ensures ok { OnOk result (names_refused self.now client.now (option_map (λ acl. acl.now) acl.entry) ≡ None) }
        ensures refused { (why : Refuses) → result ≡ Err (stops.Refused why)
            → names_refused self.now client.now (option_map (λ acl. acl.now) acl.entry) ≡ Some why }
        ensures closed { self.now.kept.broken ≡ true → result ≡ Err (stops.Refused Closed) }
        ensures halted { (halt : Halts) → result ≡ Err (stops.Halt halt) → halt ≡ IsMemoryOut }
    {
        if self.is_closed() {
            return Err(Stop::Refused(Refusal::Closed));
        }
        match setting_denial(alloc, acl, client, self.realm().as_slice()) {
            Ok(None) => Ok(()),
            Ok(Some(why)) => Err(Stop::Refused(why)),
            Err(_) => Err(Stop::Halt(Halt::MemoryOut)),
        }
    }

    /// The printed names of the principals other than K/M that a glob matches, or all without one, in the order of
    /// their bytes. They are what a rekeying of many goes through.
    ///
    /// # Errors
    ///
    /// `Closed` after a fault of the disk, `Denied` where there is an access list and it does not allow the client `s`
    /// on K/M, and `Halt` where memory is wanted and not given.
    pub fn names(
        &self,
        alloc: Global,
        client: &Name,
        acl: Option<&Acl>,
        glob: &Option<Blob>,
    ) -> Result<NameList, Stop>
        ensures names { IfOk result
            (λ names. names ≡ names_told glob.now (princ_keys (place_of self.now).rows.princs)) }
        // They are the names of the state that the rows show.
        ensures state { (s : State) → HasState self.now s
            → IfOk result (λ names. names ≡ names_told glob.now (princ_names s.princs)) }
        ensures others { IfOk result (λ names. All (λ name. is_master name ≡ false) names) }
        ensures refused { (why : Refuses) → result ≡ Err (stops.Refused why)
            → names_refused self.now client.now (option_map (λ acl. acl.now) acl.entry) ≡ Some why }
        // Where there is a cause it is told, unless memory runs out.
        ensures only_refused { (why : Refuses)
            → names_refused self.now client.now (option_map (λ acl. acl.now) acl.entry) ≡ Some why
            → IsRefusedAs result why }
        ensures closed { self.now.kept.broken ≡ true → result ≡ Err (stops.Refused Closed) }
        ensures halted { (halt : Halts) → result ≡ Err (stops.Halt halt) → halt ≡ IsMemoryOut }
    {
        match self.admit_setting(alloc, client, acl) {
            Ok(()) => match list_names(alloc, self.database.rows().princs(), glob) {
                Ok(names) => Ok(names),
                Err(_) => Err(Stop::Halt(Halt::MemoryOut)),
            },
            Err(stop) => Err(stop),
        }
    }

    /// The reply to a replica that polls from a point: what came behind it, that nothing did, or that a dump has to be
    /// taken, or cannot be where as many are under way as may be. A client to whom an access list does not allow `p` is
    /// told of nothing.
    ///
    /// # Errors
    ///
    /// `Closed` after a fault of the disk, and `Halt` where memory is wanted and not given.
    pub fn poll(
        &self,
        alloc: Global,
        client: &Name,
        acl: Option<&Acl>,
        asked: Point,
    ) -> Result<PollReply, Stop>
        ensures reply { IfOk result
            (λ r. told_reply r ≡ poll_reply (denies_pull (option_map (λ acl. acl.now) acl.entry) client.now)
            (is_full self.now) asked (place_of self.now).held) }
        ensures refused { (why : Refuses) → result ≡ Err (stops.Refused why) → poll_refused self.now ≡ Some why }
        ensures closed { self.now.kept.broken ≡ true → result ≡ Err (stops.Refused Closed) }
        ensures halted { (halt : Halts) → result ≡ Err (stops.Halt halt) → halt ≡ IsMemoryOut }
    {
        if self.is_closed() {
            return Err(Stop::Refused(Refusal::Closed));
        }
        if denies_pull(acl, client) {
            return Ok(bare_reply(alloc, ReplyCode::PermDenied, &asked));
        }
        match reply_to(alloc, self.database.log(), self.is_full(), &asked) {
            Ok(reply) => Ok(reply),
            Err(_) => Err(Stop::Halt(Halt::MemoryOut)),
        }
    }
}

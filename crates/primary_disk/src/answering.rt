//! What is answered with no change of the disk: names, polls of replicas, and dumps begun and ended.

ghost use Rattle.std.specs.Prelude.{◌≡◌, ◌+◌, ◌-◌, true, false, Err, IfOk, OnErr, OnOk, Some, option_map};
ghost use Rattle.std.specs.List.{All};
ghost use Rattle.iprop_truths.specs.Polls.{poll_reply};
ghost use Rattle.iprop_truths.specs.Pulling.{denies_pull};
ghost use Rattle.kdb_base.specs.declared.outcomes.Halt.{Halt as Halts};
ghost use Rattle.kdb_base.specs.declared.outcomes.Halt.TheVariants.{MemoryOut as IsMemoryOut};
ghost use Rattle.kdb_base.specs.declared.outcomes.Refusal.{Refusal as Refuses};
ghost use Rattle.kdb_base.specs.declared.outcomes.Refusal.TheVariants.{Closed};
ghost use Rattle.kdb_base.specs.declared.outcomes.Stop.TheVariants as stops;
ghost use Rattle.kdb_places.specs.Places.{contents_of};
ghost use Rattle.kdb_plain.specs.Lists.{princ_names};
ghost use Rattle.kdb_plain.specs.declared.states.State.{State};
ghost use Rattle.primary_answers.specs.Listing.{names_told, told_reply};
ghost use Rattle.primary_core.specs.Dumping.{contents_in};
ghost use Rattle.primary_core.specs.Opened.{HasState};
ghost use Rattle.primary_core.specs.Opening.{IsRefusedAs};
ghost use Rattle.primary_core.specs.Refusing.{dump_refused, is_full, names_refused, poll_refused};
ghost use Rattle.primary_disk.specs.Held.{dumping, is_broken, place_in};
ghost use Rattle.princ_name.specs.Printed.{is_master};
ghost use Rattle.princ_rows.specs.Rows.{princ_keys};

use crate::primary::DiskPrimary;
use acl_text::Acl;
use kadm_commands::NameList;
use kdb_base::{Blob, Point, Stop};
use kdb_disk::Disk;
use primary_core::dumping::{DumpTicket, Snapshot};
use princ_name::Name;
use princ_rows::PollReply;
use std::alloc::Global;

impl<D: Disk> DiskPrimary<D> {
    /// The printed names of the principals other than K/M that a glob matches, or all without one, in the order of
    /// their bytes. They are what a rekeying of many goes through.
    ///
    /// # Errors
    ///
    /// `Closed` after a fault of the disk, `Denied` where there is an access list and it does not allow the client `s`
    /// on K/M, and `Halt` where memory is wanted and not given.
    pub fn names(
        &self,
        alloc: Global,
        client: &Name,
        acl: Option<&Acl>,
        glob: &Option<Blob>,
    ) -> Result<NameList, Stop>
        ensures names { IfOk result
            (λ names. names ≡ names_told glob.now (princ_keys (place_in self.now).rows.princs)) }
        // They are the names of the state that the rows show.
        ensures state { (s : State) → HasState self.now.opened s
            → IfOk result (λ names. names ≡ names_told glob.now (princ_names s.princs)) }
        ensures others { IfOk result (λ names. All (λ name. is_master name ≡ false) names) }
        ensures refused { (why : Refuses) → result ≡ Err (stops.Refused why)
            → names_refused self.now.opened client.now (option_map (λ acl. acl.now) acl.entry) ≡ Some why }
        // Where there is a cause it is told, unless memory runs out.
        ensures only_refused { (why : Refuses)
            → names_refused self.now.opened client.now (option_map (λ acl. acl.now) acl.entry) ≡ Some why
            → IsRefusedAs result why }
        ensures closed { is_broken self.now ≡ true → result ≡ Err (stops.Refused Closed) }
        ensures halted { (halt : Halts) → result ≡ Err (stops.Halt halt) → halt ≡ IsMemoryOut }
    {
        self.primary.names(alloc, client, acl, glob)
    }

    /// The reply to a replica that polls from a point: what came behind it, that nothing did, or that a dump has to be
    /// taken, or cannot be where as many are under way as may be. A client to whom an access list does not allow `p` is
    /// told of nothing.
    ///
    /// # Errors
    ///
    /// `Closed` after a fault of the disk, and `Halt` where memory is wanted and not given.
    pub fn poll(
        &self,
        alloc: Global,
        client: &Name,
        acl: Option<&Acl>,
        asked: Point,
    ) -> Result<PollReply, Stop>
        ensures reply { IfOk result
            (λ r. told_reply r ≡ poll_reply (denies_pull (option_map (λ acl. acl.now) acl.entry) client.now)
            (is_full self.now.opened) asked (place_in self.now).held) }
        ensures refused { (why : Refuses) → result ≡ Err (stops.Refused why) → poll_refused self.now.opened ≡ Some why }
        ensures closed { is_broken self.now ≡ true → result ≡ Err (stops.Refused Closed) }
        ensures halted { (halt : Halts) → result ≡ Err (stops.Halt halt) → halt ≡ IsMemoryOut }
    {
        self.primary.poll(alloc, client, acl, asked)
    }

    /// Begins a dump: it gives a copy of the database, and one dump more is under way until `end_dump` is given the
    /// ticket.
    ///
    /// # Errors
    ///
    /// `Closed` after a fault of the disk, `Denied` where there is an access list and it does not allow the client `p`,
    /// `Busy` where as many dumps are under way as may be, and `Halt` where memory is wanted and not given. Nothing is
    /// changed then.
    pub fn begin_dump(
        &mut self,
        alloc: Global,
        client: &Name,
        acl: Option<&Acl>,
    ) -> Result<Snapshot, Stop>
        ensures contents { IfOk result (λ s. contents_in s ≡ contents_of (place_in self.old)) }
        ensures begun { OnOk result (self.new ≡ dumping (self.old.opened.dumps + 1) self.old) }
        ensures free { OnOk result (is_full self.old.opened ≡ false) }
        ensures err { OnErr result (self.new ≡ self.old) }
        ensures refused { (why : Refuses) → result ≡ Err (stops.Refused why)
            → dump_refused self.old.opened client.now (option_map (λ acl. acl.now) acl.entry) ≡ Some why }
        ensures only_refused { (why : Refuses)
            → dump_refused self.old.opened client.now (option_map (λ acl. acl.now) acl.entry) ≡ Some why
            → result ≡ Err (stops.Refused why) }
        ensures halted { (halt : Halts) → result ≡ Err (stops.Halt halt) → halt ≡ IsMemoryOut }
    {
        self.primary.begin_dump(alloc, client, acl)
    }

    /// Ends a dump: one less is under way, and none below none.
    pub fn end_dump(&mut self, ticket: DumpTicket)
        ensures { self.new ≡ dumping (self.old.opened.dumps - 1) self.old }
    {
        self.primary.end_dump(ticket);
    }
}

//! Dumps begun and ended.

ghost use Rattle.std.specs.Prelude.{◌≡◌, ◌+◌, ◌-◌, false, true, Err, IfOk, OnErr, OnOk, Some, option_map};
ghost use Rattle.kdb_base.specs.declared.outcomes.Halt.{Halt as Halts};
ghost use Rattle.kdb_base.specs.declared.outcomes.Halt.TheVariants.{MemoryOut as IsMemoryOut};
ghost use Rattle.kdb_base.specs.declared.outcomes.Refusal.{Refusal as Refuses};
ghost use Rattle.kdb_base.specs.declared.outcomes.Stop.TheVariants as stops;
ghost use Rattle.kdb_places.specs.Places.{contents_of};
ghost use Rattle.primary_core.specs.Dumping.{contents_in, with_dumps};
ghost use Rattle.primary_core.specs.Opened.{place_of};
ghost use Rattle.primary_core.specs.Opening.{IsRefusedAs};
ghost use Rattle.primary_core.specs.Refusing.{dump_refused, is_full};

use crate::primary::Primary;
use acl_text::Acl;
use kdb_base::{Halt, MemoryOut, Point, Refusal, Stop};
use primary_answers::{copy_rows, denial};
use princ_name::{Name, Realm};
use princ_rows::Rows;
use std::alloc::Global;

/// A dump that is under way. It is handed back to `end_dump`.
#[derive(Debug, Drop)]
pub struct DumpTicket {
    taken: (),
}

/// What a dump is written of: a copy of the whole database, as it was when the dump was begun.
#[derive(Debug, Drop)]
pub struct Snapshot {
    pub ticket: DumpTicket,
    pub realm: Realm,
    /// The last change.
    pub point: Point,
    pub rows: Rows,
}

impl Primary {
    // The database as it stands.
    fn snapshot(&self, alloc: Global) -> Result<Snapshot, MemoryOut>
        ensures { IfOk result (λ s. contents_in s ≡ contents_of (place_of self.now)) }
    {
        let realm = Realm::from_bytes(alloc, self.realm().as_slice())?;
        let rows = copy_rows(alloc, self.database.rows())?;
        Ok(Snapshot {
            ticket: DumpTicket { taken: () },
            realm,
            point: self.point(),
            rows,
        })
    }

    // Why no dump is begun.
    fn dump_refusal(&self, client: &Name, acl: Option<&Acl>) -> Option<Refusal>
        ensures { result ≡ dump_refused self.now client.now (option_map (λ acl. acl.now) acl.entry) }
    {
        if self.is_closed() {
            return Some(Refusal::Closed);
        }
        match denial(acl, client, b'p', None) {
            Some(why) => Some(why),
            None => {
                if self.is_full() {
                    Some(Refusal::Busy)
                } else {
                    None
                }
            }
        }
    }

    /// Begins a dump: it gives a copy of the database, and one dump more is under way until `end_dump` is given the
    /// ticket.
    ///
    /// # Errors
    ///
    /// `Closed` after a fault of the disk, `Denied` where there is an access list and it does not allow the client `p`,
    /// `Busy` where as many dumps are under way as may be, and `Halt` where memory is wanted and not given. Nothing is
    /// changed then.
    pub fn begin_dump(
        &mut self,
        alloc: Global,
        client: &Name,
        acl: Option<&Acl>,
    ) -> Result<Snapshot, Stop>
        ensures contents { IfOk result (λ s. contents_in s ≡ contents_of (place_of self.old)) }
        ensures begun { OnOk result (self.new ≡ with_dumps (self.old.dumps + 1) self.old) }
        ensures free { OnOk result (is_full self.old ≡ false) }
        ensures err { OnErr result (self.new ≡ self.old) }
        ensures refused { (why : Refuses) → result ≡ Err (stops.Refused why)
            → dump_refused self.old client.now (option_map (λ acl. acl.now) acl.entry) ≡ Some why }
        ensures only_refused { (why : Refuses)
            → dump_refused self.old client.now (option_map (λ acl. acl.now) acl.entry) ≡ Some why
            → result ≡ Err (stops.Refused why) }
        ensures halted { (halt : Halts) → result ≡ Err (stops.Halt halt) → halt ≡ IsMemoryOut }
    {
        match self.dump_refusal(client, acl) {
            Some(why) => Err(Stop::Refused(why)),
            None => match self.snapshot(alloc) {
                Ok(snapshot) => {
                    self.dumps += 1;
                    Ok(snapshot)
                }
                Err(_) => Err(Stop::Halt(Halt::MemoryOut)),
            },
        }
    }

    /// Ends a dump: one less is under way.
    pub fn end_dump(&mut self, ticket: DumpTicket)
        ensures { self.new ≡ with_dumps (self.old.dumps - 1) self.old }
    {
        let _ = ticket;
        self.dumps = self.dumps.saturating_sub(1);
    }
}

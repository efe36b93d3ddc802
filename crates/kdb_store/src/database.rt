ghost use Rattle.std.specs.Prelude.{◌≡◌, ◌≢◌, ◌≤◌, ◌<◌, ◌↔◌, ◌-◌, ◌+◌, false, Contains, IfSome};
ghost use Rattle.std.specs.Prelude.{IsTrue, None, Some, length, option_map, slice_index_or};
ghost use Rattle.std.specs.List.{All};
ghost use Rattle.kdb_places.specs.Places.{point_of};
ghost use Rattle.princ_rows.specs.Entries.{IsOp, entry_len};
ghost use Rattle.princ_rows.specs.declared.entries.Logged.{Logged};
ghost use Rattle.store_files.specs.Kept.{Kept, IsKept, place_kept};

use kdb_base::{Blob, Point};
use kdb_cells::Cells;
use kdb_control::Control;
use policy_rules::Policy;
use princ_name::Realm;
use princ_record::{Princ, encoded_len};
use princ_rows::{Op, Rows};
use std::marker::Model;
use update_log::Log;

/// A database: the choice of files in force, the log of its last changes, the index of its cells, its rows,
/// its realm and its stash. Its calls are lent the disk. It cannot be printed, since the bytes of a stash
/// open a database without a password.
#[derive(Drop)]
pub struct Database {
    pub(crate) control: Control,
    pub(crate) log: Log,
    pub(crate) cells: Cells,
    pub(crate) rows: Rows,
    pub(crate) realm: Realm,
    pub(crate) stash: Option<Blob>,
    pub(crate) broken: bool,
}

impl Model for Database {
    ghost use Rattle.store_files.specs.Kept.{Kept, IsKept};

    ghost Value = { Kept };

    ghost view = { λ d. record {
      control = d.control;
      log = d.log;
      cells = d.cells;
      rows = d.rows;
      realm = d.realm;
      stash = d.stash;
      broken = d.broken;
    } };

    ghost invariant = { λ d. IsKept (record {
      control = d.control;
      log = d.log;
      cells = d.cells;
      rows = d.rows;
      realm = d.realm;
      stash = d.stash;
      broken = d.broken;
    }) };
}

/// How many bytes the entry of a change has in a log: its key and its row, and what stands before them.
#[tactic(auto, unfolding(princ_rows::specs::Entries::key_of, princ_rows::specs::Entries::row_of), using(crate::proofs::Lengths::policy_length, crate::proofs::Lengths::policy_name_short))]
pub fn entry_length(op: &Op) -> usize
    requires { IsOp (Some op.now) }
    ensures value { result ≡ entry_len (Some op.now) }
    ensures short { result < 16384 }
{
    match op {
        Op::PutPrinc(princ) => 21 + princ.name.len() + encoded_len(princ),
        Op::Rename(old, princ) => 21 + old.len() + encoded_len(princ),
        Op::PutPolicy(policy) => 37 + policy.name().len() + policy.name().len(),
        Op::DropPrinc(name) => 21 + name.len(),
        Op::DropPolicy(name) => 21 + name.len(),
    }
}

impl Database {
    /// The database of these parts, as they were made or read.
    pub(crate) fn of_parts(
        control: Control,
        log: Log,
        cells: Cells,
        rows: Rows,
        realm: Realm,
        stash: Option<Blob>,
    ) -> Database
        requires { IsKept (record {
          control = control;
          log = log;
          cells = cells;
          rows = rows;
          realm = realm;
          stash = stash;
          broken = false;
        }) }
        ensures { result ≡ record {
          control = control;
          log = log;
          cells = cells;
          rows = rows;
          realm = realm;
          stash = stash;
          broken = false;
        } }
    {
        Database {
            control,
            log,
            cells,
            rows,
            realm,
            stash,
            broken: false,
        }
    }

    /// Tells a proof that what is kept hangs together. It does nothing.
    pub fn holds_kept(&self)
        ensures { IsKept self.now }
    {
        let _ = &self.rows;
    }

    /// The principal of this printed name, where there is one.
    pub fn get(&self, key: &[u8]) -> Option<&Princ>
        ensures some { IfSome result (λ p. Contains self.now.rows.princs p.now × (p.now.name ≡ key.now)) }
        ensures none { result ≡ None → All (λ p. p.name ≢ key.now) self.now.rows.princs }
    {
        self.rows.princ(key)
    }

    /// The policy of this name, where there is one.
    pub fn policy(&self, key: &[u8]) -> Option<&Policy>
        ensures some { IfSome result (λ p. Contains self.now.rows.policies p.now × (p.now.name ≡ key.now)) }
        ensures none { result ≡ None → All (λ p. p.name ≢ key.now) self.now.rows.policies }
    {
        self.rows.policy(key)
    }

    /// The principals and the policies, in the order of their keys.
    pub fn rows(&self) -> &Rows
        ensures { result.now ≡ self.now.rows }
    {
        &self.rows
    }

    /// The realm.
    pub fn realm(&self) -> &Realm
        ensures { result.now ≡ self.now.realm }
    {
        &self.realm
    }

    /// The bytes of the stash, where there is one.
    pub fn stash(&self) -> Option<&[u8]>
        ensures { option_map (λ b. b.now) result ≡ self.now.stash }
    {
        match &self.stash {
            Some(stash) => Some(stash.as_slice()),
            None => None,
        }
    }

    /// The number of the file that has the stash; 0 where there is none.
    pub fn stash_file(&self) -> u8
        ensures { result ≡ self.now.control.stash }
    {
        self.control.stash
    }

    /// The log of the last changes.
    pub fn log(&self) -> &Log
        ensures { result.now ≡ self.now.log }
    {
        &self.log
    }

    /// The points of the first and of the last entry that the log holds.
    pub fn held(&self) -> (Point, Point)
        ensures first { (d : Logged) → result.0 ≡ (slice_index_or self.now.log.held 0 d).entry.point }
        ensures last { (d : Logged)
            → result.1 ≡ (slice_index_or self.now.log.held (length self.now.log.held - 1) d).entry.point }
    {
        self.log.held()
    }

    /// The point of the last change, or of the log's base marker where there was none since.
    pub fn point(&self) -> Point
        ensures { result ≡ point_of (place_kept self.now) }
    {
        self.log.holds_journal();
        let (_, last) = self.log.held();
        last
    }

    /// How many entries the log holds at most.
    pub fn log_size(&self) -> u32
        ensures { result ≡ (place_kept self.now).size }
    {
        self.control.size
    }

    /// The length of a block of the log, in bytes.
    #[tactic(auto, unfolding(kdb_control::specs::Choice::in_ranges))]
    pub fn block(&self) -> u32
        ensures value { result ≡ (place_kept self.now).block }
        ensures least { 2048 ≤ result }
        ensures most { result ≤ 16384 }
    {
        self.control.block
    }

    /// The format of the files, 1 or 2.
    pub fn format(&self) -> u16
        ensures { result ≡ (place_kept self.now).format }
    {
        self.control.format
    }

    /// Whether a change failed by the disk. The disk is then to be opened again.
    pub fn broken(&self) -> bool
        ensures { result ≡ self.now.broken }
    {
        self.broken
    }

    /// Whether the entry of a change is short enough for a block of the log.
    pub fn fits(&self, op: &Op) -> bool
        requires op { IsOp (Some op.now) }
        ensures exact { IsTrue result ↔ (entry_len (Some op.now) ≤ (place_kept self.now).block - 1) }
    {
        entry_length(op) < self.block() as usize
    }
}

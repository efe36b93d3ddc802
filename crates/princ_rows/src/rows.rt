ghost use Rattle.std.specs.Prelude.{◌≡◌, ◌≢◌, ◌⊎◌, ◌+◌, ◌≤◌, length, true, false};
ghost use Rattle.std.specs.Prelude.{Contains, Some, None, IfOk, IfSome, OnErr, OnOk};
ghost use Rattle.std.specs.List.{All};
ghost use Rattle.kdb_base.specs.Limits.{most_rows};
ghost use Rattle.policy_rules.specs.Rules.{Rules};
ghost use Rattle.princ_rows.specs.Effects.{effect, put_princ, drop_princ, put_policy, drop_policy, IsRoom};
ghost use Rattle.princ_record.specs.RowLimits.{IsRow};
ghost use Rattle.princ_rows.specs.Entries.{IsOp};
ghost use Rattle.princ_record.specs.Policies.{IsPolicy};
ghost use Rattle.princ_rows.specs.Rows.{AreRows};
ghost use Rattle.princ_rows.specs.Undoing.{IsNewName, IsBegun, finished, undone};

use crate::begun::Begun;
use crate::boxes::Boxed;
use crate::entries::Op;
use crate::sorted::{
    Keyed, are_in_order, begin_put_boxed, begin_rename_boxed, drop_row, find_row, holds_key,
    put_boxed, undo_row,
};
use kdb_base::MemoryOut;
use kdb_base::limits::MAX_ROWS;
use policy_rules::Policy;
use princ_record::princs::Princ;
use std::marker::Model;

impl Keyed for Princ {
    ghost key_of = { λ p. p.name };

    fn key(&self) -> &[u8] {
        self.name.as_slice()
    }
}

impl Keyed for Policy {
    ghost key_of = { λ p. p.name };

    fn key(&self) -> &[u8] {
        self.name()
    }
}

/// The principals and the policies of a database, each in the byte order of its keys, and each key once.
/// There are at most [`MAX_ROWS`] of them, and each principal's spelling is a row. Each record stands behind a
/// box, so that no record moves where another one comes or goes.
#[derive(Debug, Drop)]
pub struct Rows {
    princs: Vec<Boxed<Princ>>,
    policies: Vec<Boxed<Policy>>,
}

impl Model for Rows {
    ghost use Rattle.princ_rows.specs.Rows.{RowLists, AreRows};

    ghost Value = { RowLists };

    ghost view = { λ r. record { princs = r.princs.items; policies = r.policies.items } };

    ghost invariant = { λ r. AreRows (record { princs = r.princs.items; policies = r.policies.items }) };
}

impl Rows {
    /// The rows of these records, without a copy. None where they are in another order, or more than
    /// [`MAX_ROWS`].
    pub fn from_vecs(princs: Vec<Boxed<Princ>>, policies: Vec<Boxed<Policy>>) -> Option<Rows>
        requires princs { All IsRow princs.items }
        requires policies { All IsPolicy policies.items }
        ensures some { IfSome result (λ r. r ≡ record { princs = princs.items; policies = policies.items }) }
        ensures none { result ≡ None → AreRows (record { princs = princs.items; policies = policies.items }) → ⊥ }
    {
        if princs.len() > MAX_ROWS || policies.len() > MAX_ROWS - princs.len() {
            return None;
        }
        if !are_in_order(&princs) {
            return None;
        }
        if !are_in_order(&policies) {
            return None;
        }
        Some(Rows { princs, policies })
    }

    /// The principals and the policies as vectors, without a copy.
    pub fn into_vecs(self) -> (Vec<Boxed<Princ>>, Vec<Boxed<Policy>>)
        ensures princs { result.0.items ≡ self.princs }
        ensures policies { result.1.items ≡ self.policies }
        ensures rows { AreRows self }
    {
        (self.princs, self.policies)
    }

    /// The principals in the byte order of their printed names.
    pub fn princs(&self) -> &[Boxed<Princ>]
        ensures value { result.now ≡ self.now.princs }
        ensures rows { AreRows self.now }
    {
        &self.princs
    }

    /// The policies in the byte order of their names.
    pub fn policies(&self) -> &[Boxed<Policy>]
        ensures value { result.now ≡ self.now.policies }
        ensures rows { AreRows self.now }
    {
        &self.policies
    }

    /// The principal of this printed name.
    pub fn princ(&self, name: &[u8]) -> Option<&Princ>
        ensures some { IfSome result (λ p. Contains self.now.princs p.now × (p.now.name ≡ name.now)) }
        ensures none { result ≡ None → All (λ p. p.name ≢ name.now) self.now.princs }
    {
        match find_row(self.princs(), name) {
            Some(row) => Some(row.get()),
            None => None,
        }
    }

    /// The policy of this name.
    pub fn policy(&self, name: &[u8]) -> Option<&Policy>
        ensures some { IfSome result (λ p. Contains self.now.policies p.now × (p.now.name ≡ name.now)) }
        ensures none { result ≡ None → All (λ p. p.name ≢ name.now) self.now.policies }
    {
        match find_row(self.policies(), name) {
            Some(row) => Some(row.get()),
            None => None,
        }
    }

    /// Whether a rename leaves no more rows than there may be, where there is no room for one more.
    fn has_room_for_rename(&self, old: &[u8], princ: &Princ) -> bool
        requires { most_rows ≤ length self.now.princs + length self.now.policies }
        ensures yes { result ≡ true → IsRoom (put_princ princ.now (drop_princ old.now self.now)) }
        ensures no { result ≡ false → IsRoom (put_princ princ.now (drop_princ old.now self.now)) → ⊥ }
    {
        if holds_key(self.princs(), old) {
            return true;
        }
        holds_key(self.princs(), princ.name.as_slice())
    }

    /// Whether the change leaves no more rows than there may be.
    pub fn has_room_for(&self, op: &Op) -> bool
        ensures yes { result ≡ true → IsRoom (effect (Some op.now) self.now) }
        ensures no { result ≡ false → IsRoom (effect (Some op.now) self.now) → ⊥ }
    {
        if self.princs().len() + self.policies().len() < MAX_ROWS {
            return true;
        }
        match op {
            Op::PutPrinc(princ) => holds_key(self.princs(), princ.name.as_slice()),
            Op::Rename(old, princ) => self.has_room_for_rename(old.as_slice(), princ),
            Op::PutPolicy(policy) => holds_key(self.policies(), policy.name()),
            Op::DropPrinc(_) => true,
            Op::DropPolicy(_) => true,
        }
    }

    /// Puts the principal in its place, or in that of the one with its name.
    pub fn put_princ(&mut self, princ: Princ) -> Result<(), MemoryOut>
        requires row { IsRow princ }
        requires room { IsRoom (put_princ princ self.old) }
        ensures ok { OnOk result (self.new ≡ put_princ princ self.old) }
        ensures err { OnErr result (self.new ≡ self.old) }
    {
        put_boxed(&mut self.princs, princ)
    }

    /// Takes the principal of this name away, where it is there.
    pub fn drop_princ(&mut self, name: &[u8])
        ensures { self.new ≡ drop_princ name.now self.old }
    {
        drop_row(&mut self.princs, name);
    }

    /// Puts the policy in its place, or in that of the one with its name.
    pub fn put_policy(&mut self, policy: Policy) -> Result<(), MemoryOut>
        requires row { IsPolicy policy }
        requires room { IsRoom (put_policy policy self.old) }
        ensures ok { OnOk result (self.new ≡ put_policy policy self.old) }
        ensures err { OnErr result (self.new ≡ self.old) }
    {
        put_boxed(&mut self.policies, policy)
    }

    /// Takes the policy of this name away, where it is there.
    pub fn drop_policy(&mut self, name: &[u8])
        ensures { self.new ≡ drop_policy name.now self.old }
    {
        drop_row(&mut self.policies, name);
    }

    fn begin_put_princ(&mut self, princ: Princ) -> Result<Begun, MemoryOut>
        requires row { IsRow princ }
        requires room { IsRoom (put_princ princ self.old) }
        ensures ok { IfOk result (λ b. finished b self.new ≡ put_princ princ self.old) }
        ensures back { IfOk result (λ b. undone b self.new ≡ self.old) }
        ensures fits { IfOk result (λ b. IsBegun b self.new) }
        ensures err { OnErr result (self.new ≡ self.old) }
    {
        let back = begin_put_boxed(&mut self.princs, princ)?;
        Ok(Begun::PutPrinc(back))
    }

    fn begin_rename(&mut self, old: &[u8], princ: Princ) -> Result<Begun, MemoryOut>
        requires row { IsRow princ }
        requires room { IsRoom (put_princ princ (drop_princ old.now self.old)) }
        requires name { (princ.name ≡ old.now) ⊎ All (λ q. q.name ≢ princ.name) self.old.princs }
        ensures ok { IfOk result (λ b. finished b self.new ≡ put_princ princ (drop_princ old.now self.old)) }
        ensures back { IfOk result (λ b. undone b self.new ≡ self.old) }
        ensures fits { IfOk result (λ b. IsBegun b self.new) }
        ensures err { OnErr result (self.new ≡ self.old) }
    {
        let back = begin_rename_boxed(&mut self.princs, old, princ)?;
        Ok(Begun::PutPrinc(back))
    }

    fn begin_put_policy(&mut self, policy: Policy) -> Result<Begun, MemoryOut>
        requires row { IsPolicy policy }
        requires room { IsRoom (put_policy policy self.old) }
        ensures ok { IfOk result (λ b. finished b self.new ≡ put_policy policy self.old) }
        ensures back { IfOk result (λ b. undone b self.new ≡ self.old) }
        ensures fits { IfOk result (λ b. IsBegun b self.new) }
        ensures err { OnErr result (self.new ≡ self.old) }
    {
        let back = begin_put_boxed(&mut self.policies, policy)?;
        Ok(Begun::PutPolicy(back))
    }

    /// Does the change but for a drop, which is left to `finish`. What it returns finishes the change, or
    /// takes it back.
    #[tactic(auto, unfolding(crate::specs::Undoing::finished, crate::specs::Undoing::undone, crate::specs::Effects::effect, crate::specs::Effects::drop_princ, crate::specs::Effects::drop_policy))]
    pub fn begin(&mut self, op: Op) -> Result<Begun, MemoryOut>
        requires op { IsOp (Some op) }
        requires room { IsRoom (effect (Some op) self.old) }
        requires name { IsNewName op self.old }
        // Finished, it has the effect of the change.
        ensures ok { IfOk result (λ b. finished b self.new ≡ effect (Some op) self.old) }
        // Taken back, it leaves the rows that were.
        ensures back { IfOk result (λ b. undone b self.new ≡ self.old) }
        ensures fits { IfOk result (λ b. IsBegun b self.new) }
        ensures err { OnErr result (self.new ≡ self.old) }
    {
        // The proof of a drop, which changes nothing yet, rests on the order of the rows.
        let _ = &self.princs;
        match op {
            Op::PutPrinc(princ) => self.begin_put_princ(princ),
            Op::DropPrinc(name) => Ok(Begun::DropPrinc(name)),
            Op::Rename(old, princ) => self.begin_rename(old.as_slice(), princ),
            Op::PutPolicy(policy) => self.begin_put_policy(policy),
            Op::DropPolicy(name) => Ok(Begun::DropPolicy(name)),
        }
    }

    /// Finishes what was begun.
    #[tactic(auto, unfolding(crate::specs::Undoing::finished, crate::specs::Effects::drop_princ, crate::specs::Effects::drop_policy))]
    pub fn finish(&mut self, begun: Begun)
        ensures { self.new ≡ finished begun self.old }
    {
        match begun {
            Begun::DropPrinc(name) => self.drop_princ(name.as_slice()),
            Begun::DropPolicy(name) => self.drop_policy(name.as_slice()),
            Begun::PutPrinc(_) => {}
            Begun::PutPolicy(_) => {}
        }
    }

    /// Takes back what was begun. Memory is not asked for.
    #[tactic(auto, unfolding(crate::specs::Undoing::undone))]
    pub fn undo(&mut self, begun: Begun)
        requires { IsBegun begun self.old }
        ensures { self.new ≡ undone begun self.old }
    {
        match begun {
            Begun::PutPrinc(back) => undo_row(&mut self.princs, back),
            Begun::PutPolicy(back) => undo_row(&mut self.policies, back),
            Begun::DropPrinc(_) => {}
            Begun::DropPolicy(_) => {}
        }
    }

    /// Does the whole change. A rename keeps its name or takes one that no row has: what its effect is where
    /// another row has the name is defined, and no change of a database comes to it.
    pub fn apply(&mut self, op: Op) -> Result<(), MemoryOut>
        requires op { IsOp (Some op) }
        requires room { IsRoom (effect (Some op) self.old) }
        requires name { IsNewName op self.old }
        ensures ok { OnOk result (self.new ≡ effect (Some op) self.old) }
        ensures err { OnErr result (self.new ≡ self.old) }
    {
        let begun = self.begin(op)?;
        self.finish(begun);
        Ok(())
    }
}

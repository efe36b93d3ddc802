//! What the lines of a dump said so far.
ghost use Rattle.std.specs.Prelude.{◌≡◌, ◌+◌, ◌<◌, ◌++◌, ◌∷◌, [], List, ℕ, Bool, None, Some, true, false, length};
ghost use Rattle.std.specs.Prelude.{map, take, codes, is_some, option_and_then, if◌then◌else◌, IfOk, OnOk};
ghost use Rattle.princ_record.specs.RowLimits.{IsRow};
ghost use Rattle.princ_record.specs.Policies.{IsPolicy};
ghost use Rattle.princ_rows.specs.Rows.{AreRows};
ghost use Rattle.tagged_data.specs.KeyOrder.{is_behind, rises_from};
ghost use Rattle.dump_text.specs.Judged.{after, after_end, after_point, after_realm, after_row, after_title, dump_of};
ghost use Rattle.dump_text.specs.Judged.{nothing, policy_or_end, realm_or_later, rows_of, with_policy, with_princ};
ghost use Rattle.dump_text.specs.Reader.{Goes};
ghost use Rattle.dump_text.specs.Readings.{behind, policy_of, princ_of};

use crate::dumps::Dump;
use crate::lines::print_end;
use crate::readings::{behind, point_in, policy_of, princ_of, realm_in};
use crate::stops::LineStop;
use crate::versions::Version;
use kdb_base::Point;
use kdb_base::limits::MAX_ROWS;
use policy_rules::Policy;
use princ_name::Realm;
use princ_record::Princ;
use princ_rows::{Boxed, Keyed, Rows, push_boxed};
use std::alloc::Global;
use std::cmp::Ordering;
use std::marker::Model;

fn is_above(last: &[u8], key: &[u8]) -> bool
    ensures { result ≡ is_behind (Some last.now) key.now }
{
    last.cmp(key) == Ordering::Less
}

/// Whether the item's key is behind the last one.
fn is_behind_last<T: Keyed + Drop>(items: &[Boxed<T>], item: &T) -> bool
    requires { rises_from None (map T.key_of items.now) ≡ true }
    ensures { result ≡ rises_from None (map T.key_of (items.now ++ (item.now ∷ []))) }
{
    match items.last() {
        Some(last) => is_above(last.get().key(), item.key()),
        None => true,
    }
}

fn kept_if(keep: bool, realm: Option<Realm>) -> Option<Realm>
    ensures { result ≡ (if keep then realm else None) }
{
    if keep { realm } else { None }
}

/// A place to which a reader can go back.
#[derive(Clone, Copy)]
pub(crate) struct Mark {
    titled: Option<Version>,
    has_realm: bool,
    point: Option<Point>,
    princs: usize,
    policies: usize,
    ended: bool,
}

/// What the lines so far said.
#[derive(Debug, Drop)]
pub(crate) struct Progress {
    titled: Option<Version>,
    realm: Option<Realm>,
    point: Option<Point>,
    princs: Vec<Boxed<Princ>>,
    policies: Vec<Boxed<Policy>>,
    ended: bool,
}

impl Model for Progress {
    ghost use Rattle.princ_rows.specs.Rows.{AreRows};
    ghost use Rattle.dump_text.specs.Judged.{Said};

    ghost Value = { Said };

    ghost view = { λ p. record {
      titled = p.titled;
      realm = p.realm;
      point = p.point;
      princs = p.princs.items;
      policies = p.policies.items;
      ended = p.ended;
    } };

    ghost invariant = { λ p. AreRows (record { princs = p.princs.items; policies = p.policies.items }) };
}

impl Progress {
    /// No line came.
    pub(crate) fn new(alloc: Global) -> Progress
        ensures { result ≡ nothing }
    {
        Progress {
            titled: None,
            realm: None,
            point: None,
            princs: Vec::new(alloc),
            policies: Vec::new(alloc),
            ended: false,
        }
    }

    /// The rows so far are rows of a database.
    pub(crate) fn holds_rows(&self)
        ensures { AreRows (rows_of self.now) }
    {
        let _ = &self.princs;
    }

    /// How many rows came.
    fn count(&self) -> usize
        ensures { result ≡ length self.now.princs + length self.now.policies }
    {
        self.princs.len() + self.policies.len()
    }

    #[tactic(auto, unfolding(crate::specs::Judged::after_title))]
    fn take_title(&mut self, line: &[u8]) -> Result<(), LineStop>
        ensures { Goes result (after_title self.old line.now) self.old self.new }
    {
        match Version::from_title(line) {
            Some(version) => {
                self.titled = Some(version);
                Ok(())
            }
            None => Err(LineStop::Bad),
        }
    }

    #[tactic(auto, unfolding(crate::specs::Judged::after_realm))]
    fn take_realm(&mut self, alloc: Global, line: &[u8]) -> Result<(), LineStop>
        ensures { Goes result (after_realm self.old line.now) self.old self.new }
    {
        match realm_in(alloc, line) {
            Ok(realm) => {
                self.realm = Some(realm);
                Ok(())
            }
            Err(stop) => Err(stop),
        }
    }

    #[tactic(auto, unfolding(crate::specs::Judged::after_point))]
    fn take_point(&mut self, alloc: Global, line: &[u8]) -> Result<(), LineStop>
        ensures { Goes result (after_point self.old line.now) self.old self.new }
    {
        match point_in(alloc, line) {
            Ok(point) => {
                self.point = Some(point);
                Ok(())
            }
            Err(stop) => Err(stop),
        }
    }

    #[tactic(auto, unfolding(crate::specs::Judged::with_princ))]
    fn put_princ(&mut self, princ: Princ) -> Result<(), LineStop>
        requires { IsRow princ }
        ensures { Goes result (with_princ self.old princ) self.old self.new }
    {
        if !self.policies.is_empty() {
            return Err(LineStop::Bad);
        }
        if self.princs.len() >= MAX_ROWS {
            return Err(LineStop::Bad);
        }
        if !is_behind_last(&self.princs, &princ) {
            return Err(LineStop::Bad);
        }
        push_boxed(&mut self.princs, princ)?;
        Ok(())
    }

    #[tactic(auto, unfolding(crate::specs::Judged::with_policy))]
    fn put_policy(&mut self, policy: Policy) -> Result<(), LineStop>
        requires { IsPolicy policy }
        ensures { Goes result (with_policy self.old policy) self.old self.new }
    {
        if self.count() >= MAX_ROWS {
            return Err(LineStop::Bad);
        }
        if !is_behind_last(&self.policies, &policy) {
            return Err(LineStop::Bad);
        }
        push_boxed(&mut self.policies, policy)?;
        Ok(())
    }

    #[tactic(auto, unfolding(crate::specs::Judged::after_end))]
    fn take_end(&mut self, alloc: Global, line: &[u8]) -> Result<(), LineStop>
        ensures { Goes result (after_end self.old line.now) self.old self.new }
    {
        let text = print_end(alloc, self.count())?;
        if text.as_bytes() != line {
            return Err(LineStop::Bad);
        }
        self.ended = true;
        Ok(())
    }

    fn take_princ(&mut self, alloc: Global, version: Version, text: &[u8]) -> Result<(), LineStop>
        ensures { Goes result (option_and_then (with_princ self.old) (princ_of version text.now)) self.old self.new }
    {
        match princ_of(alloc, version, text) {
            Ok(princ) => self.put_princ(princ),
            Err(stop) => Err(stop),
        }
    }

    fn take_policy(&mut self, alloc: Global, text: &[u8]) -> Result<(), LineStop>
        ensures { Goes result (option_and_then (with_policy self.old) (policy_of text.now)) self.old self.new }
    {
        match policy_of(alloc, text) {
            Ok(policy) => self.put_policy(policy),
            Err(stop) => Err(stop),
        }
    }

    fn take_policy_or_end(&mut self, alloc: Global, line: &[u8]) -> Result<(), LineStop>
        ensures { Goes result (policy_or_end self.old line.now (behind (codes "policy ") line.now)) self.old self.new }
    {
        match behind(b"policy ", line) {
            Some(text) => self.take_policy(alloc, text),
            None => self.take_end(alloc, line),
        }
    }

    #[tactic(auto, unfolding(crate::specs::Judged::after_row))]
    fn take_row(&mut self, alloc: Global, version: Version, line: &[u8]) -> Result<(), LineStop>
        ensures { Goes result (after_row version self.old line.now) self.old self.new }
    {
        match behind(b"princ ", line) {
            Some(text) => self.take_princ(alloc, version, text),
            None => self.take_policy_or_end(alloc, line),
        }
    }

    /// Takes a line behind the title.
    fn take_later(&mut self, alloc: Global, version: Version, line: &[u8]) -> Result<(), LineStop>
        ensures { Goes result (realm_or_later version self.old line.now self.old.realm) self.old self.new }
    {
        if self.realm.is_none() {
            return self.take_realm(alloc, line);
        }
        if self.point.is_none() {
            return self.take_point(alloc, line);
        }
        if self.ended {
            return Err(LineStop::Bad);
        }
        self.take_row(alloc, version, line)
    }

    /// Takes the next line, without its line feed.
    #[tactic(auto, unfolding(crate::specs::Judged::after))]
    pub(crate) fn take_line(&mut self, alloc: Global, line: &[u8]) -> Result<(), LineStop>
        ensures { Goes result (after self.old line.now) self.old self.new }
    {
        match self.titled {
            Some(version) => self.take_later(alloc, version, line),
            None => self.take_title(line),
        }
    }

    /// This place.
    pub(crate) fn mark(&self) -> Mark
        ensures { result ≡ record {
          titled = self.now.titled;
          has_realm = is_some self.now.realm;
          point = self.now.point;
          princs = length self.now.princs;
          policies = length self.now.policies;
          ended = self.now.ended;
        } }
    {
        Mark {
            titled: self.titled,
            has_realm: self.realm.is_some(),
            point: self.point,
            princs: self.princs.len(),
            policies: self.policies.len(),
            ended: self.ended,
        }
    }

    /// Goes back to a place. Memory is not asked for.
    pub(crate) fn back_to(&mut self, mark: &Mark)
        ensures { self.new ≡ record {
          titled = mark.now.titled;
          realm = (if mark.now.has_realm then self.old.realm else None);
          point = mark.now.point;
          princs = take mark.now.princs self.old.princs;
          policies = take mark.now.policies self.old.policies;
          ended = mark.now.ended;
        } }
    {
        self.titled = mark.titled;
        self.realm = kept_if(mark.has_realm, self.realm.take());
        self.point = mark.point;
        self.princs.truncate(mark.princs);
        self.policies.truncate(mark.policies);
        self.ended = mark.ended;
    }

    /// The dump whose last line came.
    #[tactic(auto, unfolding(crate::specs::Judged::dump_of))]
    pub(crate) fn into_dump(self) -> Option<Dump>
        ensures { result ≡ dump_of self }
    {
        if !self.ended {
            return None;
        }
        let rows = Rows::from_vecs(self.princs, self.policies)?;
        Some(Dump {
            realm: self.realm?,
            point: self.point?,
            rows,
        })
    }
}

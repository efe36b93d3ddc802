//! What a rekeying hands from one step to the next. None of these types prints itself: what it would print are keys.

ghost use Rattle.std.specs.Prelude.{◌≡◌};
ghost use Rattle.kdb_model.specs.Rekeying.{Taking, Work};
ghost use Rattle.princ_record.specs.Princs.{IsPrinc};
ghost use Rattle.rekey_work.specs.Works.{IsTaking, IsWork};

use kdb_base::PlainKey;
use princ_record::Princ;
use std::marker::Model;

/// A record that was taken, the version of the master key that it is to be under, the master key that protects it, and
/// that of the version.
#[derive(Drop)]
pub struct Taken {
    princ: Princ,
    version: u16,
    old: PlainKey,
    fresh: PlainKey,
}

impl Model for Taken {
    ghost use Rattle.kdb_model.specs.Rekeying.{Taking};
    ghost use Rattle.rekey_work.specs.Works.{IsTaking};

    ghost Value = { Taking };

    ghost view = { λ t. record { princ = t.princ; version = t.version; old = t.old; fresh = t.fresh } };

    ghost invariant = { λ t. IsTaking (record { princ = t.princ; version = t.version; old = t.old; fresh = t.fresh }) };
}

impl Taken {
    pub(crate) fn new(princ: Princ, version: u16, old: PlainKey, fresh: PlainKey) -> Taken
        requires { IsTaking (record { princ = princ; version = version; old = old; fresh = fresh }) }
        ensures { result ≡ record { princ = princ; version = version; old = old; fresh = fresh } }
    {
        Taken {
            princ,
            version,
            old,
            fresh,
        }
    }

    /// The record as it was taken.
    pub fn princ(&self) -> &Princ
        ensures { result.now ≡ self.now.princ }
    {
        &self.princ
    }

    /// The version of the master key that it is to be under.
    pub fn version(&self) -> u16
        ensures { result ≡ self.now.version }
    {
        self.version
    }

    /// The master key that protects it.
    pub(crate) fn old(&self) -> &PlainKey
        ensures { result.now ≡ self.now.old }
    {
        &self.old
    }

    /// The master key that it is to be under.
    pub(crate) fn fresh(&self) -> &PlainKey
        ensures { result.now ≡ self.now.fresh }
    {
        &self.fresh
    }

    /// Tells a proof what holds of every such value, and does nothing.
    pub(crate) fn holds(&self)
        ensures { IsTaking self.now }
    {
        let _ = &self.princ;
    }
}

/// A record that was taken, and what was made of it.
#[derive(Drop)]
pub struct Rewrapped {
    taken: Taken,
    made: Princ,
}

impl Model for Rewrapped {
    ghost use Rattle.kdb_model.specs.Rekeying.{Work};
    ghost use Rattle.rekey_work.specs.Works.{IsWork};

    ghost Value = { Work };

    ghost view = { λ r. record { taken = r.taken; made = r.made } };

    ghost invariant = { λ r. IsWork (record { taken = r.taken; made = r.made }) };
}

impl Rewrapped {
    pub(crate) fn new(taken: Taken, made: Princ) -> Rewrapped
        requires { IsWork (record { taken = taken; made = made }) }
        ensures { result ≡ record { taken = taken; made = made } }
    {
        Rewrapped { taken, made }
    }

    /// What was taken.
    pub fn taken(&self) -> &Taken
        ensures { result.now ≡ self.now.taken }
    {
        &self.taken
    }

    /// Tells a proof what holds of every such value, and does nothing.
    pub fn holds_work(&self)
        ensures { IsWork self.now }
    {
        let _ = &self.taken;
    }

    /// The record that was made.
    pub fn into_made(self) -> Princ
        ensures made { result ≡ self.made }
        ensures spelled { IsPrinc result }
    {
        self.made
    }
}

/// What became of work that came back.
#[derive(Drop)]
pub enum Settled {
    /// This record is to be stored.
    Updated(Princ),
    /// It is under the active version: nothing is to be done.
    Already,
    /// The name is not there any more.
    Gone,
    /// The record that is there now, where it is another than the one taken; the active version, where it is another.
    /// Neither, where a master key is another.
    Changed(Option<Princ>, Option<u16>),
}

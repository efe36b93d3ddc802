//! What a creation is asked for.

ghost use Rattle.std.specs.Prelude.{◌≡◌, ◌≤◌, option_map};
ghost use Rattle.first_rows.specs.Parts.{IsSpec};

use kdb_base::Etype;
use plain_keys::Password;
use princ_name::Realm;
use std::marker::Model;

/// What a creation is asked for: the realm, the password of the master key where it is not to be a random one,
/// the key's type, and how many entries the log holds. It does not print itself: what it would print is a password.
#[derive(Drop)]
pub struct CreateSpec {
    realm: Realm,
    password: Option<Password>,
    etype: Etype,
    /// 2 to 10000.
    size: u32,
}

impl Model for CreateSpec {
    ghost use Rattle.first_rows.specs.Parts.{IsSpec, SpecParts};

    ghost Value = { SpecParts };

    ghost view = { λ s. record { realm = s.realm; password = s.password; etype = s.etype; size = s.size } };

    ghost invariant = { λ s.
        IsSpec (record { realm = s.realm; password = s.password; etype = s.etype; size = s.size }) };
}

impl CreateSpec {
    /// A creation of a database of this realm, whose log holds so many entries.
    pub fn new(realm: Realm, password: Option<Password>, etype: Etype, size: u32) -> CreateSpec
        requires least { 2 ≤ size }
        requires most { size ≤ 10000 }
        ensures { result ≡ record { realm = realm; password = password; etype = etype; size = size } }
    {
        // It tells that a realm has the form of one.
        let _ = realm.as_slice();
        CreateSpec {
            realm,
            password,
            etype,
            size,
        }
    }

    /// The realm of the new database.
    pub fn realm(&self) -> &[u8]
        ensures value { result.now ≡ self.now.realm }
        ensures spec { IsSpec self.now }
    {
        self.realm.as_slice()
    }

    /// The password of the master key, None where that is a random key.
    pub fn password(&self) -> Option<&[u8]>
        ensures { option_map (λ p. p.now) result ≡ self.now.password }
    {
        match &self.password {
            Some(password) => Some(password.as_slice()),
            None => None,
        }
    }

    /// The type of the master key.
    pub fn etype(&self) -> Etype
        ensures { result ≡ self.now.etype }
    {
        self.etype
    }

    /// How many entries the log holds, 2 to 10000.
    pub fn size(&self) -> u32
        ensures value { result ≡ self.now.size }
        ensures spec { IsSpec self.now }
    {
        self.size
    }
}

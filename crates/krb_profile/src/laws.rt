//! What follows from the definitions alone.

ghost use Rattle.std.specs.Prelude.{◌≡◌, ℕ, List, length};
ghost use Rattle.aes_cts.specs.BlockKeys.{AreBytes};
ghost use Rattle.kdb_base.specs.Etypes.{key_len};
ghost use Rattle.kdb_base.specs.Key.{Key};
ghost use Rattle.krb_profile.specs.Profile.{IsSealed};

/// A law of the definitions, at every key that is as long as its type asks: a blob is sealed from one text under a
/// key and a usage.
pub fn sealed_once()
    ensures { (key : Key) (usage : ℕ) (blob one other : List ℕ) → length key.bytes ≡ key_len key.etype
        → AreBytes key.bytes → IsSealed key usage blob one → IsSealed key usage blob other → one ≡ other }
{}

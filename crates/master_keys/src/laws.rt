//! Laws of wrapped keys and of chains. They do no work.

ghost use Rattle.std.specs.Prelude.{◌≡◌, ℕ, List, length};
ghost use Rattle.aes_cts.specs.BlockKeys.{AreBytes};
ghost use Rattle.kdb_base.specs.Etypes.{key_len};
ghost use Rattle.kdb_base.specs.Key.{Key};
ghost use Rattle.kdb_base.specs.declared.keys.Etype.{Etype};
ghost use Rattle.kdb_base.specs.declared.versions.Master.{Master};
ghost use Rattle.princ_record.specs.declared.princs.Princ.{Princ};
ghost use Rattle.master_keys.specs.Chain.{IsChain, Lists, Opens};
ghost use Rattle.master_keys.specs.Wrapping.{Unwraps, wrapped_len};

use krb_profile::sealed_once;

/// What holds a key under a master key has 18 bytes, and as many more as the key and the master key's tag.
pub fn wrapped_keys_have_their_lengths()
    ensures { (master : Key) (etype : Etype) (blob : List ℕ) (key : Key) → Unwraps master etype blob key
        → length blob ≡ wrapped_len master.etype etype }
{}

/// Each master key of a chain opens it.
pub fn chains_are_opened_by_each_key()
    ensures { (entry : Princ) (masters : List Master) (version : ℕ) (key : Key) → IsChain entry masters
        → Lists masters version key → Opens entry version key masters }
{}

/// A blob holds one key under a master key that is as long as its type asks.
pub fn blobs_hold_one_key()
    ensures { (master : Key) (etype : Etype) (blob : List ℕ) (one other : Key)
        → length master.bytes ≡ key_len master.etype → AreBytes master.bytes → Unwraps master etype blob one
        → Unwraps master etype blob other → one ≡ other }
{
    sealed_once();
}

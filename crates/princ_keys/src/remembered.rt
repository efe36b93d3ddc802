ghost use Rattle.std.specs.Prelude.{◌≡◌, ◌++◌, ◌<◌, ◌^◌, length, OnOk};
ghost use Rattle.std.proofs.Common.{rules};
ghost use Rattle.std.specs.Cmp.Rules.{comparing};
ghost use Rattle.kdb_format.specs.Answers.{Gives};
ghost use Rattle.princ_keys.specs.Remembered.{old_key_at, old_key, IsOldKey, old_set_at, old_set};
ghost use Rattle.princ_keys.specs.Remembered.{IsOldSet, old_sets_at, old_sets, AreOldSets};
ghost use Rattle.princ_keys.specs.RememberedLaws.{old_key_field, old_set_field};

use kdb_base::limits::MAX_OLD_SETS;
use kdb_base::{Blob, Etype, MemoryOut};
use kdb_format::etypes::{push_etype, read_etype};
use kdb_format::lists::{read_list_u16, write_list_u16};
use kdb_format::writing::{push_counted, push_u16};
use kdb_format::{Format, FormatFault, Reader};
use std::alloc::Global;
use std::marker::Model;

/// A key of an earlier password, wrapped under the history key.
#[derive(Debug, Drop, PartialEq, Eq)]
pub struct OldKey {
    pub etype: Etype,
    pub wrapped: Blob,
}

/// Keys of an earlier password, in their order.
#[derive(Debug, Drop)]
pub struct OldKeys {
    items: Vec<OldKey>,
}

impl Model for OldKeys {
    ghost use Rattle.std.specs.Prelude.{List};
    ghost use Rattle.princ_keys.specs.declared.remembered.OldKey.{OldKey};

    ghost Value = { List OldKey };

    ghost view = { λ k. k.items.items };
}

impl OldKeys {
    /// The keys of this vector, without a copy.
    pub fn from_vec(items: Vec<OldKey>) -> OldKeys
        ensures { result ≡ items.items }
    {
        OldKeys { items }
    }

    /// The keys as a vector, without a copy.
    pub fn into_vec(self) -> Vec<OldKey>
        ensures { result.items ≡ self }
    {
        self.items
    }

    pub fn as_slice(&self) -> &[OldKey]
        ensures { result.now ≡ self.now }
    {
        &self.items
    }
}

impl PartialEq for OldKeys {
    ghost use Rattle.std.specs.Cmp.Lexicographic.{pointwise, lists_equiv};
    ghost use Rattle.std.specs.Cmp.{partial_equiv_from_equiv};

    ghost eq = { pointwise ⟦<OldKey as PartialEq>⟧.eq };

    ghost laws = { partial_equiv_from_equiv (lists_equiv (Prim.search (comparing, rules))) };

    fn eq(&self, other: &OldKeys) -> bool {
        self.as_slice() == other.as_slice()
    }
}

impl Eq for OldKeys {
    ghost use Rattle.std.specs.Cmp.Lexicographic.{lists_equiv};

    ghost laws = { lists_equiv (Prim.search (comparing, rules)) };
}

/// The keys of an earlier password, and the version that they had.
#[derive(Debug, Drop, PartialEq, Eq)]
pub struct OldSet {
    pub kvno: u16,
    pub keys: OldKeys,
}

/// Remembered sets, newest first.
#[derive(Debug, Drop)]
pub struct OldSets {
    items: Vec<OldSet>,
}

impl Model for OldSets {
    ghost use Rattle.std.specs.Prelude.{List};
    ghost use Rattle.princ_keys.specs.declared.remembered.OldSet.{OldSet};

    ghost Value = { List OldSet };

    ghost view = { λ s. s.items.items };
}

impl OldSets {
    /// The sets of this vector, without a copy.
    pub fn from_vec(items: Vec<OldSet>) -> OldSets
        ensures { result ≡ items.items }
    {
        OldSets { items }
    }

    /// The sets as a vector, without a copy.
    pub fn into_vec(self) -> Vec<OldSet>
        ensures { result.items ≡ self }
    {
        self.items
    }

    pub fn as_slice(&self) -> &[OldSet]
        ensures { result.now ≡ self.now }
    {
        &self.items
    }
}

impl PartialEq for OldSets {
    ghost use Rattle.std.specs.Cmp.Lexicographic.{pointwise, lists_equiv};
    ghost use Rattle.std.specs.Cmp.{partial_equiv_from_equiv, and_equiv, on_equiv};

    ghost eq = { pointwise ⟦<OldSet as PartialEq>⟧.eq };

    ghost laws = { partial_equiv_from_equiv (lists_equiv (and_equiv (on_equiv (λ s. s.kvno) (Prim.search (
      comparing,
      rules,
    ))) (on_equiv (λ s. s.keys) (lists_equiv (Prim.search (comparing, rules)))))) };

    fn eq(&self, other: &OldSets) -> bool {
        self.as_slice() == other.as_slice()
    }
}

impl Eq for OldSets {
    ghost use Rattle.std.specs.Cmp.Lexicographic.{lists_equiv};
    ghost use Rattle.std.specs.Cmp.{and_equiv, on_equiv};

    ghost laws = { lists_equiv (and_equiv (on_equiv (λ s. s.kvno) (Prim.search (comparing, rules)))
        (on_equiv (λ s. s.keys) (lists_equiv (Prim.search (comparing, rules))))) };
}

/// The format of a remembered key: its type, and the wrapped key.
pub enum OldKeyFormat {}

impl Format for OldKeyFormat {
    type Value = OldKey;

    ghost reading = { old_key_at };

    ghost spelling = { old_key };

    ghost fits = { IsOldKey };

    ghost is_field = { old_key_field };

    #[tactic(auto, unfolding(crate::specs::Remembered::old_key_at))]
    fn read(alloc: Global, reader: &mut Reader) -> Result<OldKey, FormatFault> {
        let etype = read_etype(reader)?;
        let wrapped = Blob::from_bytes(alloc, reader.counted()?)?;
        Ok(OldKey { etype, wrapped })
    }

    #[tactic(auto, unfolding(crate::specs::Remembered::old_key))]
    fn write(out: &mut Vec<u8>, value: &OldKey) -> Result<(), MemoryOut> {
        push_etype(out, value.etype)?;
        push_counted(out, value.wrapped.as_slice())?;
        Ok(())
    }
}

/// The format of a remembered set: its version, and a counted list of its keys.
pub enum OldSetFormat {}

impl Format for OldSetFormat {
    type Value = OldSet;

    ghost reading = { old_set_at };

    ghost spelling = { old_set };

    ghost fits = { IsOldSet };

    ghost is_field = { old_set_field };

    #[tactic(auto, unfolding(crate::specs::Remembered::old_set_at))]
    fn read(alloc: Global, reader: &mut Reader) -> Result<OldSet, FormatFault> {
        let kvno = reader.u16()?;
        let keys = read_list_u16::<OldKeyFormat>(alloc, reader)?;
        Ok(OldSet {
            kvno,
            keys: OldKeys::from_vec(keys),
        })
    }

    #[tactic(auto, unfolding(crate::specs::Remembered::old_set))]
    fn write(out: &mut Vec<u8>, value: &OldSet) -> Result<(), MemoryOut> {
        push_u16(out, value.kvno)?;
        write_list_u16::<OldKeyFormat>(out, value.keys.as_slice())?;
        Ok(())
    }
}

/// Reads a counted list of at most `MAX_OLD_SETS` remembered sets.
#[tactic(auto, unfolding(crate::specs::Remembered::old_sets_at, kdb_format::specs::Readings::checked))]
pub fn read_sets(alloc: Global, reader: &mut Reader) -> Result<OldSets, FormatFault>
    ensures { Gives result reader.new (old_sets_at reader.old) }
{
    let sets = read_list_u16::<OldSetFormat>(alloc, reader)?;
    if sets.len() > MAX_OLD_SETS {
        return Err(FormatFault::Malformed);
    }
    Ok(OldSets::from_vec(sets))
}

/// Appends the number of sets in two bytes, and the sets.
#[tactic(auto, unfolding(crate::specs::Remembered::old_sets))]
pub fn push_sets(out: &mut Vec<u8>, sets: &OldSets) -> Result<(), MemoryOut>
    requires { AreOldSets sets.now }
    ensures { OnOk result (out.new.items ≡ out.old.items ++ old_sets sets.now) }
{
    write_list_u16::<OldSetFormat>(out, sets.as_slice())
}

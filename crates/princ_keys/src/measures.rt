//! How long the spellings of keys are, without writing them.

ghost use Rattle.std.specs.Prelude.{◌≡◌, ◌<◌, ◌≤◌, ◌^◌, length};
ghost use Rattle.std.specs.List.{All, sum_by};
ghost use Rattle.princ_keys.specs.Keys.{salt_bytes, IsKey, AreKeys};
ghost use Rattle.princ_keys.specs.Remembered.{IsOldKey, IsOldSet, AreOldSets};
ghost use Rattle.princ_keys.specs.Sizes.{key_len, old_key_len, old_set_len};

use crate::keys::KeyItem;
use crate::remembered::{OldKey, OldSet};
use kdb_base::Salt;
use tagged_data::{Measured, measure_all};

/// The number of bytes of a salt.
fn salt_len(salt: &Salt) -> usize
    ensures { result ≡ length (salt_bytes salt.now) }
{
    match salt {
        Salt::Normal => 0,
        Salt::Special(bytes) => bytes.len(),
    }
}

impl Measured for KeyItem {
    ghost fits = { IsKey };

    ghost measure_of = { key_len };

    fn measure(&self) -> usize {
        10 + salt_len(&self.salt) + self.wrapped.len()
    }
}

impl Measured for OldKey {
    ghost fits = { IsOldKey };

    ghost measure_of = { old_key_len };

    fn measure(&self) -> usize {
        4 + self.wrapped.len()
    }
}

fn old_keys_len(keys: &[OldKey]) -> usize
    requires count { length keys.now < 2 ^ 16 }
    requires fit { All IsOldKey keys.now }
    ensures value { result ≡ sum_by old_key_len keys.now }
    ensures small { result ≤ 2 ^ 34 }
{
    measure_all(keys)
}

impl Measured for OldSet {
    ghost fits = { IsOldSet };

    ghost measure_of = { old_set_len };

    fn measure(&self) -> usize {
        4 + old_keys_len(self.keys.as_slice())
    }
}

/// The number of bytes of the spellings of all keys, without their count.
pub fn keys_len(keys: &[KeyItem]) -> usize
    requires { AreKeys keys.now }
    ensures value { result ≡ sum_by key_len keys.now }
    ensures small { result ≤ 2 ^ 23 }
{
    measure_all(keys)
}

/// The number of bytes of the spellings of all remembered sets, without their count.
pub fn sets_len(sets: &[OldSet]) -> usize
    requires { AreOldSets sets.now }
    ensures value { result ≡ sum_by old_set_len sets.now }
    ensures small { result ≤ 2 ^ 39 }
{
    measure_all(sets)
}

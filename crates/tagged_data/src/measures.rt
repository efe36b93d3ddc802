//! How long spellings are, without writing them.

ghost use Rattle.std.specs.Prelude.{◌≡◌, ◌+◌, ◌<◌, ◌≤◌, ◌^◌, ℕ, length};
ghost use Rattle.std.specs.List.{All, sum_by};
ghost use Rattle.tagged_data.specs.Strings.{IsString, strings_text, AreStrings};
ghost use Rattle.tagged_data.specs.StringLaws.{string_len};
ghost use Rattle.tagged_data.specs.Versions.{IsAuxKey, aux_keys_text, AreAuxKeys};

use crate::string_attributes::{StringAttribute, StringAttributes};
use kdb_base::{AuxKey, AuxList};

/// A value whose spelling has a length.
pub trait Measured {
    // The value has a spelling.
    ghost fits: { Self → Type 0 };

    // How many bytes it has.
    ghost measure_of: { Self → ℕ };

    /// The number of bytes of the spelling.
    fn measure(&self) -> usize
        requires { fits self.now }
        ensures { result ≡ measure_of self.now };
}

/// The number of bytes of the spellings of all items.
pub fn measure_all<T: Measured>(items: &[T]) -> usize
    requires fit { All T.fits items.now }
    requires small { sum_by T.measure_of items.now < 2 ^ 63 }
    ensures { result ≡ sum_by T.measure_of items.now }
{
    let mut total: usize = 0;
    for item in items {
        total += item.measure();
    }
    total
}

impl Measured for AuxKey {
    ghost fits = { IsAuxKey };

    ghost measure_of = { λ k. 6 + length k.wrapped };

    fn measure(&self) -> usize {
        6 + self.wrapped.len()
    }
}

impl Measured for StringAttribute {
    ghost fits = { IsString };

    ghost measure_of = { string_len };

    fn measure(&self) -> usize {
        2 + self.key.len() + self.value.len()
    }
}

/// The number of bytes that spell the auxiliary keys.
pub fn aux_len(list: &AuxList) -> usize
    requires fit { AreAuxKeys list.now }
    requires short { length (aux_keys_text list.now) < 2 ^ 16 }
    ensures { result ≡ length (aux_keys_text list.now) }
{
    measure_all(list.as_slice())
}

/// The number of bytes that spell the attributes.
pub fn strings_len(list: &StringAttributes) -> usize
    requires { AreStrings list.now }
    ensures value { result ≡ length (strings_text list.now) }
    ensures small { result ≤ 17440 }
{
    measure_all(list.as_slice())
}

ghost use Rattle.std.specs.Prelude.{◌≡◌, ℕ, map};
ghost use Rattle.tagged_data.specs.Rising.{rising_from};

use crate::items::TagItem;
use kdb_base::{Activation, AuxKey};

/// A value with the number that orders lists of such values.
pub trait Numbered {
    ghost number_of: { Self → ℕ };

    /// The number.
    fn number(&self) -> u16
        ensures { result ≡ number_of self.now };
}

impl Numbered for TagItem {
    ghost number_of = { λ i. i.kind };

    fn number(&self) -> u16 {
        self.kind
    }
}

impl Numbered for Activation {
    ghost number_of = { λ a. a.version };

    fn number(&self) -> u16 {
        self.version
    }
}

impl Numbered for AuxKey {
    ghost number_of = { λ k. k.version };

    fn number(&self) -> u16 {
        self.version
    }
}

/// Whether each number is above the one before it.
#[tactic(auto, unfolding(crate::specs::Rising::rising_from))]
pub fn are_rising<T: Numbered>(items: &[T]) -> bool
    ensures { result ≡ rising_from 0 (map T.number_of items.now) }
{
    let mut least: u32 = 0;
    for item in items {
        let number = u32::from(item.number());
        if number < least {
            return false;
        }
        least = number + 1;
    }
    true
}

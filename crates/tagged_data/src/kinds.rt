//! The types of items. A further type is added here, and to the list of types in specs.

ghost use Rattle.std.specs.Prelude.{◌≡◌};
ghost use Rattle.tagged_data.specs.Kinds.{is_kind};

/// The last change of the password.
pub const PW_CHANGE: u16 = 1;

/// Who changed the record last, and when.
pub const MODIFIER: u16 = 2;

/// The version of the master key under which the record's keys are wrapped.
pub const MKVNO: u16 = 8;

/// From when on each version of the master key may be active.
pub const ACTIVATIONS: u16 = 9;

/// The newest master key, wrapped under each older one.
pub const AUX_KEYS: u16 = 10;

/// The string attributes.
pub const STRINGS: u16 = 11;

/// The numbers of the types. A law, and no work.
pub fn numbers_of_the_types()
    ensures pw_change { PW_CHANGE ≡ 1 }
    ensures modifier { MODIFIER ≡ 2 }
    ensures mkvno { MKVNO ≡ 8 }
    ensures activations { ACTIVATIONS ≡ 9 }
    ensures aux_keys { AUX_KEYS ≡ 10 }
    ensures strings { STRINGS ≡ 11 }
{}

/// Whether it is the number of a type.
#[tactic(auto, unfolding(crate::specs::Kinds::is_kind))]
pub fn is_kind(number: u16) -> bool
    ensures { result ≡ is_kind number }
{
    matches!(
        number,
        PW_CHANGE | MODIFIER | MKVNO | ACTIVATIONS | AUX_KEYS | STRINGS
    )
}

//! The options of a command for the fields of a principal.

ghost use Rattle.std.specs.Prelude.{◌≡◌};

use kadm_values::FlagChange;
use std::marker::Model;

/// Flags in the order of their line. Of two flags on one bit the later one counts.
#[derive(Debug, Drop)]
pub struct FlagChanges {
    items: Vec<FlagChange>,
}

impl Model for FlagChanges {
    ghost use Rattle.std.specs.Prelude.{List};
    ghost use Rattle.kadm_values.specs.declared.flags.FlagChange.{FlagChange};

    ghost Value = { List FlagChange };

    ghost view = { λ f. f.items.items };
}

impl FlagChanges {
    /// The flags of this vector, without a copy.
    pub fn from_vec(items: Vec<FlagChange>) -> FlagChanges
        ensures { result ≡ items.items }
    {
        FlagChanges { items }
    }

    pub fn as_slice(&self) -> &[FlagChange]
        ensures { result.now ≡ self.now }
    {
        &self.items
    }
}

/// The options of `addprinc` and `modprinc` for the fields of a record. None where an option is not given.
#[derive(Debug, Drop)]
pub struct PrincOptions {
    /// `-expire`, in seconds since 1970, 0 for never.
    pub expire: Option<u32>,
    /// `-pwexpire`, likewise.
    pub pw_expire: Option<u32>,
    /// `-maxlife`, in seconds.
    pub max_life: Option<u32>,
    /// `-maxrenewlife`, in seconds.
    pub max_renew: Option<u32>,
    /// `+flag` and `-flag`.
    pub flags: FlagChanges,
}

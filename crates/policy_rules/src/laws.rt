//! The law of the equality of policies. It does no work.

ghost use Rattle.std.specs.Prelude.{◌≡◌, ◌↔◌, true};
ghost use Rattle.policy_rules.specs.Equal.{same_rules};
ghost use Rattle.policy_rules.specs.Rules.{Rules};

/// Policies are equal exactly where they have one name and the same numbers, every one of them.
pub fn equal_policies_are_one()
    ensures { (a b : Rules) → (same_rules a b ≡ true) ↔ (a ≡ b) }
{}

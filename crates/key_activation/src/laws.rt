//! Laws of activations. They do no work.

ghost use Rattle.std.specs.Prelude.{◌≡◌, ◌≢◌, ◌≤◌, ℕ, List, Some, None, map};
ghost use Rattle.kdb_base.specs.Versions.{AreRising};
ghost use Rattle.kdb_base.specs.declared.versions.Activation.{Activation};
ghost use Rattle.key_activation.specs.Activations.{IsActive, NoneBegun, active, activation_of};

/// At most one version is active, and `active` is it.
pub fn active_is_one()
    ensures some { (list : List Activation) (secs version : ℕ) → IsActive list secs version
        → active list secs ≡ Some version }
    ensures none { (list : List Activation) (secs : ℕ) → NoneBegun list secs → active list secs ≡ None }
{}

/// Where some version is active, some version is active at every later moment.
pub fn some_version_stays_active()
    ensures some { (list : List Activation) (early late : ℕ) → early ≤ late → active list early ≢ None
        → active list late ≢ None }
    ensures none { (list : List Activation) (early late : ℕ) → early ≤ late → NoneBegun list late
        → NoneBegun list early }
{}

/// A list is told by the activation of each version.
pub fn lists_with_equal_activations_are_equal()
    ensures { (a b : List Activation) → AreRising (map (λ x. x.version) a) → AreRising (map (λ x. x.version) b)
        → ((version : ℕ) → activation_of version a ≡ activation_of version b) → a ≡ b }
{}

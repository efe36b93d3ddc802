ghost use Rattle.std.specs.Prelude.{◌≡◌, ◌||◌, ◌↔◌, ◌⊎◌, ◌-◌, ◌≤◌, Contains, IsTrue, min};
ghost use Rattle.policy_rules.specs.Reuse.{IsReused, is_among, is_reused};

use kdb_base::PlainKey;

fn holds(keys: &[PlainKey], key: &PlainKey) -> bool
    ensures is { IsTrue result ↔ Contains keys.now key.now }
    ensures value { result ≡ is_among keys.now key.now }
{
    keys.iter().any(|other| other == key)
}

fn is_used(key: &PlainKey, now: &[PlainKey], old: &[PlainKey]) -> bool
    ensures is { IsTrue result ↔ (Contains now.now key.now ⊎ Contains old.now key.now) }
    ensures value { result ≡ (is_among now.now key.now || is_among old.now key.now) }
{
    holds(now, key) || holds(old, key)
}

/// Whether a key of a new password equals, in its encryption type and its bytes, a key of the
/// standing password, `now`, or a remembered one, `old`.
pub fn reused(fresh: &[PlainKey], now: &[PlainKey], old: &[PlainKey]) -> bool
    ensures is { IsTrue result ↔ IsReused fresh.now now.now old.now }
    ensures value { result ≡ is_reused fresh.now now.now old.now }
{
    fresh.iter().any(|key| is_used(key, now, old))
}

/// How many of `old` remembered sets of keys stay, a newly remembered one counted among them. The
/// standing password is one of those that the history counts.
pub fn kept_sets(history: u16, old: usize) -> usize
    requires { 1 ≤ history }
    ensures { result ≡ min old (history - 1) }
{
    old.min(usize::from(history - 1))
}

ghost use Rattle.std.specs.Prelude.{◌≡◌, ◌↔◌, [], Contains, IsTrue};

use std::alloc::Global;
use std::marker::Model;

/// The numbers, counted from 0 over all calls of one object in memory, of its calls that are to fail.
#[derive(Debug, Drop)]
pub struct Fails {
    calls: Vec<u64>,
}

impl Model for Fails {
    ghost use Rattle.std.specs.Prelude.{List, ℕ};

    ghost Value = { List ℕ };

    ghost view = { λ f. f.calls.items };
}

impl Fails {
    /// No call fails.
    pub fn none(alloc: Global) -> Fails
        ensures { result ≡ [] }
    {
        Fails {
            calls: Vec::new(alloc),
        }
    }

    /// The calls of these numbers fail.
    pub fn from_vec(calls: Vec<u64>) -> Fails
        ensures { result ≡ calls.items }
    {
        Fails { calls }
    }

    /// Whether the call of this number is to fail.
    pub fn contains(&self, call: u64) -> bool
        ensures { IsTrue result ↔ Contains self.now call }
    {
        self.calls.contains(&call)
    }
}

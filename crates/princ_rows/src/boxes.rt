//! A record behind a box, which a list of records moves at the cost of a pointer.

ghost use Rattle.std.specs.Prelude.{◌≡◌, ◌++◌, ◌∷◌, [], IfOk, OnErr, OnOk};

use kdb_base::MemoryOut;
use std::alloc::Global;
use std::marker::Model;

/// A record behind a box.
#[derive(Debug, Drop)]
pub struct Boxed<T> {
    held: Box<T>,
}

impl<T> Model for Boxed<T> {
    ghost Value = { T };

    ghost view = { λ b. b.held.value };
}

impl<T: Drop> Boxed<T> {
    /// Puts the record behind a box. Only want of memory can refuse it.
    pub fn new(alloc: Global, item: T) -> Result<Boxed<T>, MemoryOut>
        ensures { IfOk result (λ b. b ≡ item) }
    {
        let held = Box::new(alloc, item)?;
        Ok(Boxed { held })
    }

    /// The record.
    pub fn get(&self) -> &T
        ensures { result.now ≡ self.now }
    {
        &self.held
    }

    /// The record without its box.
    pub fn into_inner(self) -> T
        ensures { result ≡ self }
    {
        Box::into_inner(self.held)
    }
}

/// Puts the record behind a box, and the box behind all others. Only want of memory can refuse it.
pub fn push_boxed<T: Drop>(items: &mut Vec<Boxed<T>>, item: T) -> Result<(), MemoryOut>
    ensures ok { OnOk result (items.new.items ≡ items.old.items ++ (item ∷ [])) }
    ensures err { OnErr result (items.new.items ≡ items.old.items) }
{
    let boxed = Boxed::new(*items.allocator(), item)?;
    items.push(boxed)?;
    Ok(())
}

//! The activations of master keys: which is active, and changes of the list.

ghost use Rattle.std.specs.Prelude.{◌≡◌, ◌≢◌, ◌≤◌, ℕ, None, OnErr, OnOk, Some, map};
ghost use Rattle.kdb_base.specs.Versions.{AreRising};
ghost use Rattle.key_activation.specs.Activations.{AreNumbered, IsActive, NoneBegun, activation_of};
ghost use Rattle.key_activation.specs.Activations.{active, later, with_activation, without_activation};

use kdb_base::{Activation, Activations, MemoryOut};
use std::alloc::Global;
use std::mem;

/// The one that begins later, or at a tie has the greater version.
#[tactic(auto, unfolding(crate::specs::Activations::later))]
fn later(a: Activation, b: Activation) -> Activation
    ensures { result ≡ later a b }
{
    let is_later = b.secs < a.secs || (b.secs == a.secs && b.version < a.version);
    if is_later { a } else { b }
}

/// The version of the latest activation that is not after `secs`, in seconds since 1970. Where two
/// begin in the same second, it is the greater version. `None` where all are after them.
pub fn active_at(list: &Activations, secs: u32) -> Option<u16>
    ensures value { result ≡ active list.now secs }
    ensures some { (version : ℕ) → result ≡ Some version → IsActive list.now secs version }
    ensures none { result ≡ None → NoneBegun list.now secs }
{
    list.as_slice()
        .iter()
        .copied()
        .filter(|activation| activation.secs <= secs)
        .reduce(later)
        .map(|activation| activation.version)
}

/// Puts the activation in the place of the one of its version, or else between the lower and the
/// greater versions.
fn put(items: &mut Vec<Activation>, activation: Activation) -> Result<(), MemoryOut>
    requires { AreRising (map (λ a. a.version) items.old.items) }
    ensures ok { OnOk result (items.new.items ≡ with_activation activation.version activation.secs items.old.items) }
    ensures err { OnErr result (items.new.items ≡ items.old.items) }
    ensures rising { AreRising (map (λ a. a.version) items.new.items) }
{
    match items.binary_search_by_key(&activation.version, |other| other.version) {
        Ok(at) => {
            items[at] = activation;
            Ok(())
        }
        Err(at) => {
            items.insert(at, activation)?;
            Ok(())
        }
    }
}

/// Sets from when on the version may be active, in seconds since 1970. It replaces an earlier setting
/// of the same version. Where memory runs out, the list stays as it is.
#[tactic(auto, using(crate::proofs::Order::empty_rises))]
pub fn set(alloc: Global, list: &mut Activations, version: u16, secs: u32) -> Result<(), MemoryOut>
    ensures is { OnOk result (list.new ≡ with_activation version secs list.old) }
    // Versions that count from 1 do so still, where this one does.
    ensures numbered { OnOk result (1 ≤ version → AreNumbered list.old → AreNumbered list.new) }
    ensures own { OnOk result (activation_of version list.new ≡ Some secs) }
    ensures others { OnOk result ((v : ℕ) → v ≢ version → activation_of v list.new ≡ activation_of v list.old) }
    ensures err { OnErr result (list.new ≡ list.old) }
{
    let empty = Activations::from_vec(Vec::new(alloc));
    let mut items = mem::replace(list, empty).into_vec();
    let done = put(&mut items, Activation { version, secs });
    *list = Activations::from_vec(items);
    done
}

/// Takes the activation of the version away, where it has one. Memory is not asked for.
pub fn drop_version(list: &mut Activations, version: u16)
    ensures is { list.new ≡ without_activation version list.old }
    ensures numbered { AreNumbered list.old → AreNumbered list.new }
    ensures gone { activation_of version list.new ≡ None }
    ensures others { (v : ℕ) → v ≢ version → activation_of v list.new ≡ activation_of v list.old }
{
    let mut items = list.take();
    items.retain(|activation| activation.version != version);
    *list = Activations::from_vec(items);
}

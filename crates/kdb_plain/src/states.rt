//! The state of a database.

use crate::lists::{PlainPrincs, PolicyList};
use kdb_base::{Activations, Blob, Masters, Point};

/// A database as its administrators see it, with every key in the plain.
#[derive(Drop)]
pub struct State {
    pub realm: Blob,
    /// The master keys by rising versions.
    pub masters: Masters,
    /// From when on each version of the master key may be active.
    pub activations: Activations,
    pub princs: PlainPrincs,
    pub policies: PolicyList,
    /// The serial and the time of the last change.
    pub point: Point,
}

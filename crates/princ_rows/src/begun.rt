//! A change of rows that was begun. It can be finished, and it can be taken back; neither asks for memory.

ghost use Rattle.std.specs.Prelude.{◌≡◌, Some, None, IfSome};
ghost use Rattle.princ_rows.specs.Undoing.{dropped_princ, dropped_policy};

use crate::boxes::Boxed;
use crate::sorted::RowBack;
use kdb_base::Blob;
use policy_rules::Policy;
use princ_record::princs::Princ;

/// What `Rows::begin` began. A put and a rename are done already; a drop is only noted.
#[derive(Debug, Drop)]
pub enum Begun {
    /// A principal was put, or renamed.
    PutPrinc(RowBack<Boxed<Princ>>),
    /// The printed name of the principal to be dropped.
    DropPrinc(Blob),
    /// A policy was put.
    PutPolicy(RowBack<Boxed<Policy>>),
    /// The name of the policy to be dropped.
    DropPolicy(Blob),
}

impl Begun {
    /// The printed name of the principal that `Rows::finish` takes away, where it is there.
    pub fn dropped_princ(&self) -> Option<&[u8]>
        ensures some { IfSome result (λ name. dropped_princ self.now ≡ Some name.now) }
        ensures none { result ≡ None → dropped_princ self.now ≡ None }
    {
        match self {
            Begun::DropPrinc(name) => Some(name.as_slice()),
            _ => None,
        }
    }

    /// The name of the policy that `Rows::finish` takes away, where it is there.
    pub fn dropped_policy(&self) -> Option<&[u8]>
        ensures some { IfSome result (λ name. dropped_policy self.now ≡ Some name.now) }
        ensures none { result ≡ None → dropped_policy self.now ≡ None }
    {
        match self {
            Begun::DropPolicy(name) => Some(name.as_slice()),
            _ => None,
        }
    }
}

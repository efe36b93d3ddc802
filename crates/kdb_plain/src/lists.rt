//! The principals and the policies of a state, each in the byte order of its names.

ghost use Rattle.std.specs.Prelude.{◌≡◌, None, IfSome};
ghost use Rattle.kdb_plain.specs.Lists.{ArePolicies, ArePrincs};

use crate::princs::PlainPrinc;
use kdb_base::limits::MAX_ROWS;
use policy_rules::Policy;
use princ_rows::sorted::are_in_order;
use std::marker::Model;

/// Principals in the byte order of their printed names, each name once, and at most [`MAX_ROWS`] of them.
#[derive(Drop)]
pub struct PlainPrincs {
    items: Vec<PlainPrinc>,
}

impl Model for PlainPrincs {
    ghost use Rattle.std.specs.Prelude.{List};
    ghost use Rattle.kdb_plain.specs.Lists.{ArePrincs};
    ghost use Rattle.kdb_plain.specs.declared.princs.PlainPrinc.{PlainPrinc};

    ghost Value = { List PlainPrinc };

    ghost view = { λ p. p.items.items };

    ghost invariant = { λ p. ArePrincs p.items.items };
}

impl PlainPrincs {
    /// The principals of this vector, without a copy. None where they are in another order, or too many.
    pub fn from_vec(items: Vec<PlainPrinc>) -> Option<PlainPrincs>
        ensures some { IfSome result (λ p. p ≡ items.items) }
        ensures none { result ≡ None → ArePrincs items.items → ⊥ }
    {
        if items.len() > MAX_ROWS {
            return None;
        }
        if !are_in_order(&items) {
            return None;
        }
        Some(PlainPrincs { items })
    }

    /// The principals of a vector that is in order.
    pub(crate) fn of_vec(items: Vec<PlainPrinc>) -> PlainPrincs
        requires { ArePrincs items.items }
        ensures { result ≡ items.items }
    {
        PlainPrincs { items }
    }

    /// The principals as a vector, without a copy.
    pub fn into_vec(self) -> Vec<PlainPrinc>
        ensures value { result.items ≡ self }
        ensures princs { ArePrincs result.items }
    {
        self.items
    }

    pub fn as_slice(&self) -> &[PlainPrinc]
        ensures value { result.now ≡ self.now }
        ensures princs { ArePrincs result.now }
    {
        &self.items
    }
}

/// Policies in the byte order of their names, each name once, and at most [`MAX_ROWS`] of them.
#[derive(Drop)]
pub struct PolicyList {
    items: Vec<Policy>,
}

impl Model for PolicyList {
    ghost use Rattle.std.specs.Prelude.{List};
    ghost use Rattle.kdb_plain.specs.Lists.{ArePolicies};
    ghost use Rattle.policy_rules.specs.Rules.{Rules};

    ghost Value = { List Rules };

    ghost view = { λ p. p.items.items };

    ghost invariant = { λ p. ArePolicies p.items.items };
}

impl PolicyList {
    /// The policies of this vector, without a copy. None where they are in another order, or too many.
    pub fn from_vec(items: Vec<Policy>) -> Option<PolicyList>
        ensures some { IfSome result (λ p. p ≡ items.items) }
        ensures none { result ≡ None → ArePolicies items.items → ⊥ }
    {
        if items.len() > MAX_ROWS {
            return None;
        }
        if !are_in_order(&items) {
            return None;
        }
        Some(PolicyList { items })
    }

    /// The policies of a vector that is in order.
    pub(crate) fn of_vec(items: Vec<Policy>) -> PolicyList
        requires { ArePolicies items.items }
        ensures { result ≡ items.items }
    {
        PolicyList { items }
    }

    /// The policies as a vector, without a copy.
    pub fn into_vec(self) -> Vec<Policy>
        ensures value { result.items ≡ self }
        ensures policies { ArePolicies result.items }
    {
        self.items
    }

    pub fn as_slice(&self) -> &[Policy]
        ensures value { result.now ≡ self.now }
        ensures policies { ArePolicies result.now }
    {
        &self.items
    }
}

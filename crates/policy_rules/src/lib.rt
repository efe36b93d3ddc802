//! Policies, and what they ask of passwords.
#![tactic(auto)]

pub mod laws;
pub mod numbers;
pub mod passwords;
pub mod policies;
pub mod reuse;

pub use numbers::Numbers;
pub use passwords::{check_numbers, check_password, has_few_classes, is_short};
pub use policies::{Policy, is_history, is_min_classes, is_min_length, is_policy_name};
pub use reuse::{kept_sets, reused};

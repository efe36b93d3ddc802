//! Sealed texts and derived keys of the encryption types of RFC 3962, which are the simplified profile of RFC 3961,
//! section 5, with AES and HMAC-SHA1, and of RFC 8009.

#![tactic(auto)]

mod derivation;
mod folding;
mod laws;
mod sha1_keys;
mod usages;

pub use derivation::{derive, string_to_key};
pub use folding::n_fold;
pub use laws::sealed_once;
pub use sha2_profile::UnsealFault;
pub use usages::{UsageKeys, seal, unseal};

//! The encryption types of RFC 8009, whose hash functions are of SHA-2: aes128-cts-hmac-sha256-128 and
//! aes256-cts-hmac-sha384-192.

#![tactic(auto)]

mod derivation;
mod faults;
mod macs;
mod sealing;

pub use derivation::{kdf, string_to_key2};
pub use faults::UnsealFault;
pub use macs::{hmac_sha256, hmac_sha384};
pub use sealing::{Sha2Keys, seal2, unseal2};

//! The ciphers, the digests under keys and the profiles of the encryption types, by the vectors of
//! their standards. The crate has no code of its own.
#![tactic(auto)]

#[cfg(test)]
mod blocks;
#[cfg(test)]
mod macs;
#[cfg(test)]
mod seals;
#[cfg(test)]
mod sha2_seals;

//! The keys of a database: wrapped, chained, remembered and rekeyed, in rows and in the plain state that they show,
//! from its creation to its opening by a stash. The crate has no code of its own.
#![tactic(auto)]

#[cfg(test)]
mod creations;
#[cfg(test)]
mod master_chains;
#[cfg(test)]
mod plain_states;
#[cfg(test)]
mod rekeying;
#[cfg(test)]
mod remembering;
#[cfg(test)]
mod serving;
#[cfg(test)]
mod shown_rows;
#[cfg(test)]
mod stashed_keys;

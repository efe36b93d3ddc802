//! Lines as they are read, and replies and reports as they are written. The crate has no code of its own.
#![tactic(auto)]

#[cfg(test)]
mod lines;
#[cfg(test)]
mod replies;
#[cfg(test)]
mod reports;

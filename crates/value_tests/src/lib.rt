//! Policies and passwords, activations, and what words and lines spell: tables of what is read,
//! with what it says, and of what is refused. The crate has no code of its own.
#![tactic(auto)]

#[cfg(test)]
mod activations;
#[cfg(test)]
mod lines;
#[cfg(test)]
mod options;
#[cfg(test)]
mod policies;
#[cfg(test)]
mod values;
#[cfg(test)]
mod words;

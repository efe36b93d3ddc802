//! Tests of the commands of master keys and of rekeyings, over a database as it is made. It has no code of its own.
#![tactic(auto)]

#[cfg(test)]
mod chains;
#[cfg(test)]
mod databases;
#[cfg(test)]
mod plans;
#[cfg(test)]
mod rekeyings;

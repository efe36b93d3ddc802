//! The outside as traits, the disk, the words of formats and the control file, and the polls,
//! messages and connections of propagation. The crate has no code of its own.
#![tactic(auto)]

#[cfg(test)]
mod connections;
#[cfg(test)]
mod controls;
#[cfg(test)]
mod disks;
#[cfg(test)]
mod fields;
#[cfg(test)]
mod frames;
#[cfg(test)]
mod places;
#[cfg(test)]
mod polls;
#[cfg(test)]
mod ports;

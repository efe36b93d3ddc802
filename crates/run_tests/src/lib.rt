//! Whole runs of the program in memory and over a real folder, with their replies from the manual: a test
//! a topic. The crate has no code of its own.
#![tactic(auto)]

#[cfg(test)]
mod accounts;
#[cfg(test)]
mod databases;
#[cfg(test)]
mod dumps;
#[cfg(test)]
mod faults;
#[cfg(test)]
mod folders;
#[cfg(test)]
mod keys;
#[cfg(test)]
mod keytabs;
#[cfg(test)]
mod lines;
#[cfg(test)]
mod masters;
#[cfg(test)]
mod rim;
#[cfg(test)]
mod rules;
#[cfg(test)]
mod runs;
#[cfg(test)]
mod scripts;
#[cfg(test)]
mod stores;

//! A primary together with its disk in memory: what its calls answer, one after another, and where it stands after a
//! crash inside of some of them. The crate has no code of its own.
#![tactic(auto)]

#[cfg(test)]
mod answers;
#[cfg(test)]
mod bench;
#[cfg(test)]
mod calls;
#[cfg(test)]
mod dumps;
#[cfg(test)]
mod faults;
#[cfg(test)]
mod formats;
#[cfg(test)]
mod lists;
#[cfg(test)]
mod openings;
#[cfg(test)]
mod patches;
#[cfg(test)]
mod polls;
#[cfg(test)]
mod records;
#[cfg(test)]
mod rekeyings;
#[cfg(test)]
mod stops;
#[cfg(test)]
mod texts;
#[cfg(test)]
mod turns;

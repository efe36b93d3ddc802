//! A database over an update log and cells, on a disk in memory: what its files hold, where it stands after a
//! crash inside of each of its calls, and which place of a damaged file is named. The crate has no code of its
//! own.
#![tactic(auto)]

#[cfg(test)]
mod cells;
#[cfg(test)]
mod changes;
#[cfg(test)]
mod counts;
#[cfg(test)]
mod damage;
#[cfg(test)]
mod formats;
#[cfg(test)]
mod logs;
#[cfg(test)]
mod looks;
#[cfg(test)]
mod many_rows;
#[cfg(test)]
mod openings;
#[cfg(test)]
mod places;
#[cfg(test)]
mod records;
#[cfg(test)]
mod runs;
#[cfg(test)]
mod scripts;
#[cfg(test)]
mod steps;
#[cfg(test)]
mod stops;

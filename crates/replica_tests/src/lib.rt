//! A replica over a disk in memory: what its calls answer, and where it stands behind them. The crate has no code of
//! its own.
#![tactic(auto)]

#[cfg(test)]
mod faults;
#[cfg(test)]
mod first_files;
#[cfg(test)]
mod frames;
#[cfg(test)]
mod given;
#[cfg(test)]
mod logs;
#[cfg(test)]
mod refusals;
#[cfg(test)]
mod replies;
#[cfg(test)]
mod spelled;
#[cfg(test)]
mod steps;

//! What goes from one database to another: dumps, loads, replies to polls, and a replica that takes them; and the log
//! that polls are answered from, as lines. The crate has no code of its own.
#![tactic(auto)]

#[cfg(test)]
mod dumps;
#[cfg(test)]
mod filled_logs;
#[cfg(test)]
mod loads;
#[cfg(test)]
mod polls;
#[cfg(test)]
mod replicas;
#[cfg(test)]
mod ulogs;

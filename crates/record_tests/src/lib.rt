//! Words, names, records, entries of the log, access lists, stashes and keytabs as they are read and written: tables of
//! what is read, with what it says, and of what is refused. The crate has no code of its own.
#![tactic(auto)]

#[cfg(test)]
mod access_lists;
#[cfg(test)]
mod entries;
#[cfg(test)]
mod keytabs;
#[cfg(test)]
mod names;
#[cfg(test)]
mod records;
#[cfg(test)]
mod replies;
#[cfg(test)]
mod rows;
#[cfg(test)]
mod stashes;
#[cfg(test)]
mod tagged_lists;

//! Tests of the judge of lines over rows and of the interpreter of the model, side by side, over a database as it is
//! made. It has no code of its own.
#![tactic(auto)]

#[cfg(test)]
mod databases;
#[cfg(test)]
mod full;
#[cfg(test)]
mod lengths;
#[cfg(test)]
mod lists;
#[cfg(test)]
mod masters;
#[cfg(test)]
mod opening;
#[cfg(test)]
mod order;
#[cfg(test)]
mod plain;
#[cfg(test)]
mod rollover;
#[cfg(test)]
mod script;
#[cfg(test)]
mod seconds;
#[cfg(test)]
mod sessions;

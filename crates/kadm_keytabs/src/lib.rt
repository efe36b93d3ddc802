//! Keytabs that are read from an input, changed and written: the runs of `ktremove` and `ktadd`.
#![tactic(auto)]

pub mod adding;
pub mod answers;
pub mod inputs;
mod judging;
pub mod removing;
pub mod renewing;

pub use adding::ktadd_standing;
pub use answers::Answer;
pub use inputs::{read_input, read_keytab_input};
pub use removing::ktremove;
pub use renewing::ktadd_renewing;

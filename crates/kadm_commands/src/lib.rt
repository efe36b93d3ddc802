//! The commands of administrators and their answers, as values: what a line asks for, and what is told of it. The
//! texts of both are elsewhere, and so is what a command does.
#![tactic(auto)]

pub mod commands;
pub mod copies;
pub mod names;
pub mod options;
pub mod policies;
pub mod replies;
pub mod shown;
pub mod versions;

pub use commands::{
    AddPrinc, ChangeKeys, Command, DelString, ModPrinc, PurgeKeys, RenPrinc, SetString, UseMaster,
};
pub use copies::copy_command;
pub use names::NameList;
pub use options::{FlagChanges, PrincOptions};
pub use policies::{ModPolicy, PolicyChoice};
pub use replies::{Reply, Totals};
pub use shown::{KeyShown, KeysShown, PrincShown};
pub use versions::{MasterRow, MasterRows, PurgeRow, PurgeRows};

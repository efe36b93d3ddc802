//! The file of access rules of kadmind (kadm5.acl of the MIT Kerberos administration guide): its text as
//! rules, who may do what to which principal, and the restrictions that a rule puts in force.
#![tactic(auto)]

pub mod acl;
pub mod faults;
pub mod laws;
mod letters;
pub mod limits;
mod rules;
mod targets;
mod texts;

pub use acl::{Acl, Verdict};
pub use faults::AclFault;
pub use limits::{Limits, Wanted, restrict};

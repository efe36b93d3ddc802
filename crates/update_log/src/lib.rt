//! The log of the last changes of a database, on a disk that may crash at any moment. A replica that
//! knows an earlier point is answered from it.
#![tactic(auto)]

mod bodies;
pub mod laws;
pub mod log;
pub mod making;
mod reading;
mod running;
mod scanning;
mod slots;
mod writes;

pub use log::Log;
pub use making::NewLog;

//! What a plan is given.

use acl_text::Acl;
use kdb_base::{Masters, Time};
use princ_name::Name;
use princ_rows::Rows;

/// What a plan sees of a database.
#[derive(Clone, Copy)]
pub struct View<'a> {
    pub rows: &'a Rows,
    /// The master keys under which the keys of the rows are wrapped.
    pub masters: &'a Masters,
    pub realm: &'a [u8],
}

/// What a command is judged by.
#[derive(Clone, Copy)]
pub struct Given<'a> {
    pub rows: &'a Rows,
    pub masters: &'a Masters,
    pub realm: &'a [u8],
    /// Who gives the command.
    pub client: &'a Name,
    /// The access list, where there is one.
    pub acl: Option<&'a Acl>,
    /// The later of the clock's time and that of the last change.
    pub moment: Time,
    /// The block of random bytes of the command.
    pub random: &'a [u8],
}

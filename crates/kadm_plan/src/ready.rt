//! What is made of a command before it is judged: what takes long, and needs no rows.

ghost use Rattle.std.specs.Prelude.{◌≡◌, IfOk};
ghost use Rattle.kadm_commands.specs.Commands.{IsCommand, IsOwnCommand};
ghost use Rattle.princ_plans.specs.Ready.{password_made, ready_keys, ready_new};

use kadm_commands::{Command, copy_command};
use kdb_base::MemoryOut;
use plain_keys::{NewKeys, PlainKeys, normal_salt, password_keys};
use princ_name::Name;
use std::alloc::Global;
use std::marker::Model;

/// A command that is ready to be judged, with the keys of its password. It does not print itself: what it would print
/// may be a password or a key.
#[derive(Drop)]
pub struct Ready {
    command: Command,
    keys: PlainKeys,
}

impl Model for Ready {
    ghost use Rattle.kadm_plan.specs.Ready.{IsPrepared, Prepared};

    ghost Value = { Prepared };

    ghost view = { λ r. record { command = r.command; keys = r.keys } };

    ghost invariant = { λ r. IsPrepared (record { command = r.command; keys = r.keys }) };
}

impl Ready {
    /// The command.
    pub fn command(&self) -> &Command
        ensures value { result.now ≡ self.now.command }
        ensures own { IsOwnCommand result.now }
    {
        &self.command
    }

    /// The keys of its password; none where it has no password.
    pub fn keys(&self) -> &PlainKeys
        ensures value { result.now ≡ self.now.keys }
        ensures own { result.now ≡ ready_keys self.now.command }
    {
        &self.keys
    }
}

/// The keys of a password, and none of random bytes.
fn password_made(alloc: Global, name: &Name, keys: &NewKeys) -> Result<PlainKeys, MemoryOut>
    ensures { IfOk result (λ made. made ≡ password_made name.now keys.now) }
{
    match keys {
        NewKeys::Random(_) => Ok(PlainKeys::from_vec(Vec::new(alloc))),
        NewKeys::Password(password, etypes) => {
            let salt = normal_salt(alloc, name)?;
            password_keys(
                alloc,
                password.as_slice(),
                salt.as_slice(),
                etypes.as_slice(),
            )
        }
    }
}

/// The keys of the password that a new principal gets, where it gets one.
fn ready_new(alloc: Global, name: &Name, keys: &Option<NewKeys>) -> Result<PlainKeys, MemoryOut>
    ensures { IfOk result (λ made. made ≡ ready_new name.now keys.now) }
{
    match keys {
        Some(keys) => password_made(alloc, name, keys),
        None => Ok(PlainKeys::from_vec(Vec::new(alloc))),
    }
}

/// The keys of the command's password.
#[tactic(auto, unfolding(princ_plans::specs::Ready::ready_keys))]
fn ready_keys(alloc: Global, command: &Command) -> Result<PlainKeys, MemoryOut>
    ensures { IfOk result (λ made. made ≡ ready_keys command.now) }
{
    match command {
        Command::AddPrinc(c) => ready_new(alloc, &c.name, &c.keys),
        Command::ChangeKeys(c) => password_made(alloc, &c.name, &c.keys),
        _ => Ok(PlainKeys::from_vec(Vec::new(alloc))),
    }
}

/// Derives the keys of the command's password, where it has one, so that they need not be derived while the database
/// waits. The command's names are of the realm.
///
/// # Errors
///
/// `MemoryOut` where memory is wanted and not given.
pub fn prepare(alloc: Global, command: &Command, realm: &[u8]) -> Result<Ready, MemoryOut>
    requires { IsCommand realm.now command.now }
    ensures command { IfOk result (λ r. r.command ≡ command.now) }
    ensures keys { IfOk result (λ r. r.keys ≡ ready_keys command.now) }
{
    let _ = realm;
    let copied = copy_command(alloc, command)?;
    let keys = ready_keys(alloc, command)?;
    Ok(Ready {
        command: copied,
        keys,
    })
}

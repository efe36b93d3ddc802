//! What the interpreter is asked: a command, whose it is, and what is known when it comes.

ghost use Rattle.std.specs.Prelude.{◌≡◌, option_map};
ghost use Rattle.kdb_model.specs.Access.{limits_for};
ghost use Rattle.kdb_model.specs.Asking.{call_in, state_in};
ghost use Rattle.kdb_model.specs.Calls.{moment_of, secs_of};
ghost use Rattle.kdb_model.specs.Records.{active_in};

use acl_text::{Acl, Limits};
use kadm_commands::Command;
use kdb_base::Time;
use kdb_plain::State;
use key_activation::active_at;
use princ_name::Name;

/// A command in a state.
#[derive(Clone, Copy)]
pub struct Asked<'a> {
    pub state: &'a State,
    pub client: &'a Name,
    /// The access list, where there is one.
    pub acl: Option<&'a Acl>,
    pub command: &'a Command,
    /// What the clock says.
    pub moment: Time,
    /// The block of random bytes of the command.
    pub random: &'a [u8],
}

/// The later of the clock's time and that of the last change.
pub(crate) fn moment_of(asked: &Asked) -> Time
    ensures { result ≡ moment_of (state_in asked.now) (call_in asked.now) }
{
    asked.state.point.time.later(asked.moment)
}

/// The same in seconds.
pub(crate) fn secs_of(asked: &Asked) -> u32
    ensures { result ≡ secs_of (state_in asked.now) (call_in asked.now) }
{
    moment_of(asked).secs()
}

/// The version of the master key that is active then, 0 where none is.
pub(crate) fn active_in(asked: &Asked) -> u16
    ensures { result ≡ active_in (state_in asked.now) (call_in asked.now) }
{
    match active_at(&asked.state.activations, secs_of(asked)) {
        Some(version) => version,
        None => 0,
    }
}

/// The restrictions of the line that decides on an operation on a principal.
#[tactic(auto, unfolding(crate::specs::Access::limits_for))]
pub(crate) fn limits_for<'a>(asked: &Asked<'a>, letter: u8, name: &Name) -> Option<&'a Limits>
    ensures { option_map (λ l. l.now) result ≡ limits_for (call_in asked.now) letter name.now }
{
    match asked.acl {
        Some(acl) => acl.decide(asked.client, letter, Some(name)).limits,
        None => None,
    }
}

//! A plain state in which lines are judged.

ghost use Rattle.std.specs.Prelude.{◌≡◌, IfOk, length, true};
ghost use Rattle.kadm_commands.specs.Commands.{IsCommand};
ghost use Rattle.kdb_model.specs.Steps.{is_one_step};
ghost use Rattle.plan_tests.specs.Steady.{IsSteady};
ghost use Rattle.princ_name.specs.Realms.{IsRealm};

use crate::opening::{SECS, opened_state};
use acl_text::Acl;
use kadm_commands::{Command, Reply};
use kdb_base::{Masters, Time};
use kdb_model::laws::step_keeps_states_valid;
use kdb_model::step_plain;
use kdb_plain::State;
use princ_name::{Name, is_printed, print_name};
use princ_rows::Rows;
use row_keys::check_rows;
use row_keys::laws::sound_rows_show_one_state;
use std::alloc::Global;
use std::marker::Model;
use std::test::Fail;

/// A plain state that is valid.
#[derive(Drop)]
pub(crate) struct Plain {
    state: State,
}

impl Model for Plain {
    ghost use Rattle.kdb_plain.specs.declared.states.State.{State};
    ghost use Rattle.plan_tests.specs.Steady.{IsSteady};

    ghost Value = { State };

    ghost view = { λ p. p.state };

    ghost invariant = { λ p. IsSteady p.state };
}

/// The random bytes of the change behind this serial.
pub(crate) fn block(sno: u32) -> [u8; 2048] {
    [(sno % 256) as u8; 2048]
}

/// What a line does to a state and answers, at this second of the clock.
fn stepped(
    alloc: Global,
    state: &State,
    client: &Name,
    acl: Option<&Acl>,
    command: &Command,
    secs: u32,
) -> Result<(State, Reply), Fail>
    requires steady { IsSteady state.now }
    requires command { IsCommand state.now.realm command.now }
    requires one { is_one_step command.now ≡ true }
    ensures { IfOk result (λ both. IsSteady both.0) }
{
    step_keeps_states_valid();
    let printed = print_name(alloc, client)?;
    let text = printed.as_slice();
    if !is_printed(text) {
        return Err(Fail::from("a printed name"));
    }
    if state.point.sno == u32::MAX {
        return Err(Fail::from("a serial"));
    }
    let random = block(state.point.sno);
    let moment = Time::new(secs, 0);
    match step_plain(alloc, state, text, command, acl, moment, &random) {
        Ok(both) => Ok(both),
        Err(_) => Err(Fail::from("no memory")),
    }
}

impl Plain {
    /// The state that the rows of a creation show, where they are sound.
    pub(crate) fn open(
        alloc: Global,
        rows: &Rows,
        masters: &Masters,
        realm: &[u8],
    ) -> Result<Plain, Fail>
        requires { IsRealm realm.now }
    {
        sound_rows_show_one_state();
        let _ = rows.princs();
        check_rows(alloc, rows, masters, realm, SECS)?;
        let state = opened_state(alloc, rows, masters, realm)?;
        Ok(Plain { state })
    }

    pub(crate) fn state(&self) -> &State
        ensures value { result.now ≡ self.now }
        ensures steady { IsSteady self.now }
    {
        &self.state
    }

    /// What a line leaves and answers, at this second of the clock.
    pub(crate) fn step(
        &self,
        alloc: Global,
        client: &Name,
        acl: Option<&Acl>,
        command: &Command,
        secs: u32,
    ) -> Result<(Plain, Reply), Fail>
        requires command { IsCommand self.now.realm command.now }
        requires one { is_one_step command.now ≡ true }
    {
        let (state, reply) = stepped(alloc, &self.state, client, acl, command, secs)?;
        Ok((Plain { state }, reply))
    }
}

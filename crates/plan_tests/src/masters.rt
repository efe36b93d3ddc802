//! What lines of master keys come to over rows.

ghost use Rattle.std.specs.Prelude.{◌≡◌, IfOk, true};
ghost use Rattle.command_plans.specs.Given.{IsApplied};
ghost use Rattle.kadm_commands.specs.Commands.{IsCommand};
ghost use Rattle.mkey_admin.specs.Plans.{is_master_command};
ghost use Rattle.plan_tests.specs.Steady.{MastersMayBePut};

use crate::databases::{Database, moment, point, put, refused};
use crate::plain::{Plain, block};
use acl_text::Acl;
use kadm_commands::{Command, Reply};
use kadm_plan::View;
use kdb_base::{Masters, Point, Stop, Time};
use mkey_admin::{MasterChange, MasterPlan, plan};
use princ_name::Name;
use princ_rows::Rows;
use std::alloc::Global;
use std::test::Fail;

/// Whether the command is of master keys, and no file decides it.
pub(crate) fn is_master_command(command: &Command) -> bool
    ensures { result ≡ is_master_command command.now }
{
    match command {
        Command::AddMaster(_) => true,
        Command::UseMaster(_) => true,
        Command::ListMasters => true,
        Command::PurgeMasters => true,
        _ => false,
    }
}

/// What the line comes to over rows.
#[tactic(auto, using(crate::proofs::MadeChanges::masters_may_be_put))]
fn planned(
    alloc: Global,
    rows: &Rows,
    masters: &Masters,
    plain: &Plain,
    client: &Name,
    acl: Option<&Acl>,
    command: &Command,
    moment: Time,
) -> Result<MasterPlan, Stop>
    requires command { IsCommand plain.now.realm command.now }
    requires planned { is_master_command command.now ≡ true }
    ensures { IfOk result (MastersMayBePut rows.now) }
{
    let state = plain.state();
    let realm = state.realm.as_slice();
    let view = View {
        rows,
        masters,
        realm,
    };
    let random = block(state.point.sno);
    plan(alloc, command, &view, client, acl, moment, &random)
}

/// Makes the change of the rows, and takes its master keys.
fn changed(
    rows: &mut Rows,
    masters: &mut Masters,
    change: MasterChange,
    point: Point,
) -> Result<Reply, Fail>
    requires { IsApplied rows.old change.op }
{
    put(rows, change.op)?;
    *masters = change.masters;
    Ok(change.told.reply(point))
}

/// What is answered, once the change is made.
fn made(
    rows: &mut Rows,
    masters: &mut Masters,
    planned: MasterPlan,
    point: Point,
) -> Result<Reply, Fail>
    requires { MastersMayBePut rows.old planned }
{
    match planned {
        MasterPlan::Answer(reply) => Ok(reply),
        MasterPlan::Change(change) => changed(rows, masters, change, point),
    }
}

/// What the line is answered over rows, once its change is made.
fn answered(
    rows: &mut Rows,
    masters: &mut Masters,
    planned: Result<MasterPlan, Stop>,
    point: Point,
) -> Result<Reply, Fail>
    requires { IfOk planned (MastersMayBePut rows.old) }
{
    match planned {
        Ok(planned) => made(rows, masters, planned, point),
        Err(stop) => refused(stop),
    }
}

/// What a line of master keys is answered over rows, once its change is made.
pub(crate) fn answer_of_masters(
    alloc: Global,
    database: &mut Database,
    client: &Name,
    acl: Option<&Acl>,
    command: &Command,
) -> Result<Reply, Fail>
    requires command { IsCommand database.old.plain.realm command.now }
    requires planned { is_master_command command.now ≡ true }
    ensures { database.new.plain ≡ database.old.plain }
{
    let moment = moment(database.secs, &database.plain);
    let planned = planned(
        alloc,
        &database.rows,
        &database.masters,
        &database.plain,
        client,
        acl,
        command,
        moment,
    );
    let point = point(moment, &database.plain);
    answered(&mut database.rows, &mut database.masters, planned, point)
}

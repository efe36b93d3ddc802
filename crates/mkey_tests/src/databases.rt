//! A database as it is made, and what commands of master keys make of it.

ghost use Rattle.std.specs.Prelude.{◌≡◌, ℕ, List, IfOk, true};
ghost use Rattle.command_plans.specs.Given.{IsApplied};
ghost use Rattle.kadm_commands.specs.Commands.{IsCommand};
ghost use Rattle.mkey_admin.specs.Plans.{is_master_command};
ghost use Rattle.mkey_tests.specs.Made.{MayBePut};
ghost use Rattle.princ_record.specs.RowLimits.{IsRow};

use acl_text::Acl;
use command_plans::View;
use first_rows::{CreateSpec, first_rows};
use kadm_commands::{Command, Reply, UseMaster};
use kadm_replies::print_reply;
use kdb_base::{Etype, Masters, Point, Stop, Time};
use kdb_places::laws::what_may_be_applied;
use mkey_admin::{MasterChange, MasterPlan, plan};
use princ_name::{Realm, is_realm, parse_name};
use princ_record::Princ;
use princ_rows::{Op, Rows};
use std::alloc::Global;
use std::process::Abort;
use std::test::Fail;

/// The second of the creation, 2023-11-14T22:13:20Z.
pub(crate) const CREATED: u32 = 1_700_000_000;

/// An hour later.
pub(crate) const LATER: u32 = 1_700_003_600;

/// A command of master keys: the type of `add_mkey`, the version and the seconds of `use_mkey`.
#[derive(Clone, Copy)]
pub(crate) enum Asked {
    Add(Option<Etype>),
    Use(u16, Option<u32>),
    List,
    Purge,
}

/// A command, the second at which it is given, and what is answered.
pub(crate) type Turn = (Asked, u32, &'static str);

/// The rows, the master keys, and the serial of the last change.
#[derive(Drop)]
pub(crate) struct Database {
    pub rows: Rows,
    pub masters: Masters,
    pub sno: u32,
}

/// The random bytes of the change that gets this serial.
fn block(sno: u32) -> [u8; 2048] {
    [(sno % 256) as u8; 2048]
}

fn realm(alloc: Global) -> Result<Realm, Fail> {
    let text = b"EXAMPLE.ORG";
    if !is_realm(text) {
        return Err(Fail::from("a realm"));
    }
    Ok(Realm::from_bytes(alloc, text)?)
}

/// A database with K/M, kadmin/history and krbtgt, under one master key. Their keys are made of these random bytes.
fn created_of(alloc: Global, random: &[u8; 2048]) -> Result<Database, Fail> {
    let realm = realm(alloc)?;
    let spec = CreateSpec::new(realm, None, Etype::Aes256, 1000);
    let (rows, masters) = first_rows(alloc, &spec, Time::new(CREATED, 0), random)?;
    Ok(Database {
        rows,
        masters,
        sno: 1,
    })
}

/// A new database.
pub(crate) fn created(alloc: Global) -> Result<Database, Fail> {
    created_of(alloc, &block(7))
}

/// A new database whose first keys are all others.
pub(crate) fn created_with_other_keys(alloc: Global) -> Result<Database, Fail> {
    created_of(alloc, &block(8))
}

/// `use_mkey` as a line gives it.
#[tactic(auto, unfolding(kadm_commands::specs::Commands::IsCommand))]
fn used(version: u16, secs: Option<u32>) -> Result<Command, Fail>
    ensures command { (realm : List ℕ) → IfOk result (IsCommand realm) }
    ensures planned { IfOk result (λ c. is_master_command c ≡ true) }
{
    if version == 0 {
        return Err(Fail::from("a version"));
    }
    match secs {
        Some(secs) => {
            if secs == 0 {
                return Err(Fail::from("a time"));
            }
            let secs = Some(secs);
            Ok(Command::UseMaster(UseMaster { version, secs }))
        }
        None => Ok(Command::UseMaster(UseMaster {
            version,
            secs: None,
        })),
    }
}

/// The command as a line gives it.
#[tactic(auto, unfolding(kadm_commands::specs::Commands::IsCommand))]
fn command(asked: Asked) -> Result<Command, Fail>
    ensures command { (realm : List ℕ) → IfOk result (IsCommand realm) }
    ensures planned { IfOk result (λ c. is_master_command c ≡ true) }
{
    match asked {
        Asked::Add(etype) => Ok(Command::AddMaster(etype)),
        Asked::Use(version, secs) => used(version, secs),
        Asked::List => Ok(Command::ListMasters),
        Asked::Purge => Ok(Command::PurgeMasters),
    }
}

/// What the command comes to. Each change has random bytes of its own.
#[tactic(auto, using(crate::proofs::MadeChanges::plan_may_be_put))]
fn planned(
    alloc: Global,
    database: &Database,
    acl: Option<&Acl>,
    command: &Command,
    secs: u32,
) -> Result<Result<MasterPlan, Stop>, Fail>
    requires command { (realm : List ℕ) → IsCommand realm command.now }
    requires planned { is_master_command command.now ≡ true }
    ensures { IfOk result (λ planned. IfOk planned (MayBePut database.now.rows)) }
{
    let realm = realm(alloc)?;
    let view = View {
        rows: &database.rows,
        masters: &database.masters,
        realm: realm.as_slice(),
    };
    let Ok(client) = parse_name(alloc, b"admin", realm.as_slice()) else {
        return Err(Fail::from("a name"));
    };
    let moment = Time::new(secs, 0);
    let random = block(database.sno);
    Ok(plan(alloc, command, &view, &client, acl, moment, &random))
}

/// Makes the change of the rows.
pub(crate) fn put(database: &mut Database, op: Op) -> Result<(), Fail>
    requires { IsApplied database.old.rows op }
{
    what_may_be_applied();
    database.rows.apply(op)?;
    database.sno = database.sno.saturating_add(1);
    Ok(())
}

fn changed(database: &mut Database, change: MasterChange, secs: u32) -> Result<Reply, Fail>
    requires { IsApplied database.old.rows change.op }
{
    put(database, change.op)?;
    database.masters = change.masters;
    let point = Point {
        sno: database.sno,
        time: Time::new(secs, 0),
    };
    Ok(change.told.reply(point))
}

fn accepted(database: &mut Database, planned: MasterPlan, secs: u32) -> Result<Reply, Fail>
    requires { MayBePut database.old.rows planned }
{
    match planned {
        MasterPlan::Answer(reply) => Ok(reply),
        MasterPlan::Change(change) => changed(database, change, secs),
    }
}

fn refused(stop: Stop) -> Result<Reply, Fail> {
    match stop {
        Stop::Refused(why) => Ok(Reply::Refused(why)),
        Stop::Halt(_) => Err(Fail::from("no memory")),
    }
}

/// What is asked for comes to this.
fn planned_for(
    alloc: Global,
    database: &Database,
    acl: Option<&Acl>,
    asked: Asked,
    secs: u32,
) -> Result<Result<MasterPlan, Stop>, Fail>
    ensures { IfOk result (λ planned. IfOk planned (MayBePut database.now.rows)) }
{
    let command = command(asked)?;
    planned(alloc, database, acl, &command, secs)
}

/// What is answered, once the change is made.
fn answer(
    database: &mut Database,
    planned: Result<MasterPlan, Stop>,
    secs: u32,
) -> Result<Reply, Fail>
    requires { IfOk planned (MayBePut database.old.rows) }
{
    match planned {
        Ok(planned) => accepted(database, planned, secs),
        Err(stop) => refused(stop),
    }
}

/// What the command is answered, once its change is made.
pub(crate) fn answered(
    alloc: Global,
    database: &mut Database,
    acl: Option<&Acl>,
    asked: Asked,
    secs: u32,
) -> Result<Reply, Fail> {
    let planned = planned_for(alloc, database, acl, asked, secs)?;
    answer(database, planned, secs)
}

/// Compares the text of a reply.
pub(crate) fn check_reply(
    rt: &impl Abort,
    alloc: Global,
    reply: &Reply,
    wanted: &str,
) -> Result<(), Fail> {
    let said = print_reply(alloc, reply)?;
    assert_eq!(rt; said.as_slice(), wanted.as_bytes());
    Ok(())
}

/// Gives the command, and compares what is answered.
fn check_turn(
    rt: &impl Abort,
    alloc: Global,
    database: &mut Database,
    acl: Option<&Acl>,
    turn: &Turn,
) -> Result<(), Fail> {
    let (asked, secs, wanted) = turn;
    let reply = answered(alloc, database, acl, *asked, *secs)?;
    check_reply(rt, alloc, &reply, wanted)
}

/// Gives the commands one after another, and compares what is answered.
pub(crate) fn check_turns(
    rt: &impl Abort,
    alloc: Global,
    database: &mut Database,
    acl: Option<&Acl>,
    turns: &[Turn],
) -> Result<(), Fail> {
    for turn in turns {
        check_turn(rt, alloc, database, acl, turn)?;
    }
    Ok(())
}

/// Gives the commands over a new database, without an access list.
pub(crate) fn check_created(
    rt: &impl Abort,
    alloc: Global,
    turns: &[Turn],
) -> Result<Database, Fail> {
    let mut database = created(alloc)?;
    check_turns(rt, alloc, &mut database, None, turns)?;
    Ok(database)
}

/// The record at this place, in the order of names: K/M, kadmin/history and krbtgt.
pub(crate) fn stored(rows: &Rows, at: usize) -> Result<&Princ, Fail>
    ensures { IfOk result (λ p. IsRow p.now) }
{
    match rows.princs().get(at) {
        Some(row) => Ok(row.get()),
        None => Err(Fail::from("a record")),
    }
}

/// How long the wrapped keys of the record at this place are.
pub(crate) fn check_lengths(
    rt: &impl Abort,
    database: &Database,
    at: usize,
    wanted: &[usize],
) -> Result<(), Fail> {
    let keys = stored(&database.rows, at)?.keys.as_slice();
    assert_eq!(rt; keys.len(), wanted.len());
    for (item, len) in keys.iter().zip(wanted) {
        assert_eq!(rt; item.wrapped.len(), *len);
    }
    Ok(())
}

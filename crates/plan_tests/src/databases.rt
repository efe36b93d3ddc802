//! A database as rows and as the plain state that they show, and what lines make of both.

ghost use Rattle.std.specs.Prelude.{◌≡◌, IfOk, IfSome, length, true};
ghost use Rattle.command_plans.specs.Given.{IsApplied};
ghost use Rattle.kadm_commands.specs.Commands.{IsCommand};
ghost use Rattle.kadm_plan.specs.Ready.{is_planned};
ghost use Rattle.kdb_model.specs.Steps.{is_one_step};
ghost use Rattle.plan_tests.specs.Steady.{MayBePut};
ghost use Rattle.princ_name.specs.Realms.{IsRealm};

use crate::masters::{answer_of_masters, is_master_command};
use crate::opening::SECS;
use crate::plain::{Plain, block};
use acl_text::Acl;
use first_rows::{CreateSpec, first_rows};
use kadm_commands::{Command, Reply};
use kadm_plan::{Planned, Ready, View, plan, prepare};
use kadm_replies::print_reply;
use kadm_wire::parse_line;
use kdb_base::{Etype, Masters, MemoryOut, Point, Refusal, Stop, Time};
use kdb_places::laws::what_may_be_applied;
use princ_name::{Name, Realm, is_realm, parse_name};
use princ_rows::{Op, Rows};
use row_keys::check_rows;
use std::alloc::Global;
use std::process::Abort;
use std::test::Fail;

/// The same database twice, and the second of the clock.
#[derive(Drop)]
pub(crate) struct Database {
    pub rows: Rows,
    pub masters: Masters,
    pub plain: Plain,
    pub secs: u32,
}

/// A line, and what is answered to it, without its last line feed; nothing where nothing is answered.
pub(crate) type Turn = (&'static str, &'static str);

/// An access list where there is one, the client, a line, and what is answered to it.
pub(crate) type Case = (
    Option<&'static str>,
    &'static str,
    &'static str,
    &'static str,
);

/// The second of the clock, and what is given then.
pub(crate) type Second = (u32, &'static [Case]);

pub(crate) const REALM: &[u8] = b"EXAMPLE.ORG";

/// The administrator of the machine.
pub(crate) const LOCAL: &str = "admin/local";

fn realm(alloc: Global) -> Result<Realm, Fail> {
    if !is_realm(REALM) {
        return Err(Fail::from("a realm"));
    }
    Ok(Realm::from_bytes(alloc, REALM)?)
}

// Each of the next three drops a value by a call of the library, so that no caller is proved with
// all that it may own.

pub(crate) fn let_go_of_command(command: Command) {
    let held: Result<Command, MemoryOut> = Ok(command);
    let _ = held.err();
}

pub(crate) fn let_go_of_reply(reply: Option<Reply>) {
    let held: Result<Option<Reply>, MemoryOut> = Ok(reply);
    let _ = held.err();
}

fn let_go_of_ready(ready: Ready) {
    let held: Result<Ready, MemoryOut> = Ok(ready);
    let _ = held.err();
}

/// The rows, and the plain state that they show.
fn opened(alloc: Global, rows: Rows, masters: Masters, realm: &[u8]) -> Result<Database, Fail>
    requires { IsRealm realm.now }
{
    let plain = Plain::open(alloc, &rows, &masters, realm)?;
    Ok(Database {
        rows,
        masters,
        plain,
        secs: SECS,
    })
}

/// A database with K/M, kadmin/history and krbtgt.
pub(crate) fn created(alloc: Global) -> Result<Database, Fail> {
    let realm = realm(alloc)?;
    let spec = CreateSpec::new(realm, None, Etype::Aes256, 1000);
    let (rows, masters) = first_rows(alloc, &spec, Time::new(SECS, 0), &block(0))?;
    opened(alloc, rows, masters, spec.realm())
}

fn open_plain(alloc: Global, database: &mut Database, realm: &[u8]) -> Result<(), Fail>
    requires { IsRealm realm.now }
{
    database.plain = Plain::open(alloc, &database.rows, &database.masters, realm)?;
    Ok(())
}

/// Has the plain state be the one that the rows show, at the point of the creation.
pub(crate) fn reopen(alloc: Global, database: &mut Database) -> Result<(), Fail> {
    let realm = realm(alloc)?;
    open_plain(alloc, database, realm.as_slice())
}

// ---- the rows

/// The moment of a change: the later of the clock's time and that of the last change.
pub(crate) fn moment(secs: u32, plain: &Plain) -> Time {
    Time::new(secs, 0).later(plain.state().point.time)
}

/// The point of a change of this moment.
pub(crate) fn point(moment: Time, plain: &Plain) -> Point {
    Point {
        sno: plain.state().point.sno.saturating_add(1),
        time: moment,
    }
}

/// What the line comes to over rows.
#[tactic(auto, using(crate::proofs::MadeChanges::plan_may_be_put))]
fn planned(
    alloc: Global,
    rows: &Rows,
    masters: &Masters,
    plain: &Plain,
    client: &Name,
    acl: Option<&Acl>,
    command: &Command,
    moment: Time,
) -> Result<Result<Planned, Stop>, Fail>
    requires command { IsCommand plain.now.realm command.now }
    requires planned { is_planned command.now ≡ true }
    ensures { IfOk result (λ planned. IfOk planned (MayBePut rows.now)) }
{
    let state = plain.state();
    let realm = state.realm.as_slice();
    let view = View {
        rows,
        masters,
        realm,
    };
    let ready = prepare(alloc, command, realm)?;
    let random = block(state.point.sno);
    let planned = plan(alloc, &ready, &view, client, acl, moment, &random);
    let_go_of_ready(ready);
    Ok(planned)
}

/// Makes the change of the rows.
pub(crate) fn put(rows: &mut Rows, op: Op) -> Result<(), Fail>
    requires { IsApplied rows.old op }
{
    what_may_be_applied();
    rows.apply(op)?;
    Ok(())
}

/// What is answered, once the change is made.
fn made(rows: &mut Rows, planned: Planned, point: Point) -> Result<Reply, Fail>
    requires { MayBePut rows.old planned }
{
    match planned {
        Planned::Answer(reply) => Ok(reply),
        Planned::Change(op) => {
            put(rows, op)?;
            Ok(Reply::Done(point))
        }
    }
}

pub(crate) fn refused(stop: Stop) -> Result<Reply, Fail> {
    match stop {
        Stop::Refused(why) => Ok(Reply::Refused(why)),
        Stop::Halt(_) => Err(Fail::from("no memory")),
    }
}

/// What the line is answered over rows, once its change is made.
fn answered(rows: &mut Rows, planned: Result<Planned, Stop>, point: Point) -> Result<Reply, Fail>
    requires { IfOk planned (MayBePut rows.old) }
{
    match planned {
        Ok(planned) => made(rows, planned, point),
        Err(stop) => refused(stop),
    }
}

/// Whether the command is of principals and policies, and not of the files or the master keys.
fn is_planned(command: &Command) -> bool
    ensures { result ≡ is_planned command.now }
{
    match command {
        Command::AddMaster(_) => false,
        Command::UseMaster(_) => false,
        Command::ListMasters => false,
        Command::PurgeMasters => false,
        Command::RekeyPrincs(_) => false,
        Command::Stash => false,
        Command::Dump => false,
        _ => true,
    }
}

/// What a line of principals and policies is answered over rows, once its change is made.
fn answer_of_planned(
    alloc: Global,
    database: &mut Database,
    client: &Name,
    acl: Option<&Acl>,
    command: &Command,
) -> Result<Reply, Fail>
    requires command { IsCommand database.old.plain.realm command.now }
    requires planned { is_planned command.now ≡ true }
    ensures { database.new.plain ≡ database.old.plain }
{
    let moment = moment(database.secs, &database.plain);
    let planned = planned(
        alloc,
        &database.rows,
        &database.masters,
        &database.plain,
        client,
        acl,
        command,
        moment,
    )?;
    let point = point(moment, &database.plain);
    answered(&mut database.rows, planned, point)
}

/// What the line is answered over rows; nothing where the files decide it. A line of master keys leaves them as they
/// are behind it.
pub(crate) fn answer_of_rows(
    alloc: Global,
    database: &mut Database,
    client: &Name,
    acl: Option<&Acl>,
    command: &Command,
) -> Result<Option<Reply>, Fail>
    requires { IsCommand database.old.plain.realm command.now }
    ensures { database.new.plain ≡ database.old.plain }
{
    if is_planned(command) {
        let reply = answer_of_planned(alloc, database, client, acl, command)?;
        return Ok(Some(reply));
    }
    if is_master_command(command) {
        let reply = answer_of_masters(alloc, database, client, acl, command)?;
        return Ok(Some(reply));
    }
    Ok(None)
}

// ---- both

/// Whether one step does the command.
fn is_one_step(command: &Command) -> bool
    ensures { result ≡ is_one_step command.now }
{
    match command {
        Command::RekeyPrincs(_) => false,
        Command::Dump => false,
        _ => true,
    }
}

/// What the model answers to a command of one step. The change is made in the plain state.
fn answer_of_state(
    alloc: Global,
    database: &mut Database,
    client: &Name,
    acl: Option<&Acl>,
    command: &Command,
) -> Result<Reply, Fail>
    requires command { IsCommand database.old.plain.realm command.now }
    requires one { is_one_step command.now ≡ true }
{
    let (plain, reply) = database
        .plain
        .step(alloc, client, acl, command, database.secs)?;
    database.plain = plain;
    Ok(reply)
}

/// What is answered over the rows, where no file decides the line, and what the model answers. The change is made on
/// both sides.
fn answers(
    alloc: Global,
    database: &mut Database,
    client: &Name,
    acl: Option<&Acl>,
    command: &Command,
) -> Result<(Option<Reply>, Reply), Fail>
    requires { IsCommand database.old.plain.realm command.now }
{
    if !is_one_step(command) {
        return Err(Fail::from("a line of one step"));
    }
    let of_rows = answer_of_rows(alloc, database, client, acl, command)?;
    match answer_of_state(alloc, database, client, acl, command) {
        Ok(of_state) => Ok((of_rows, of_state)),
        Err(fail) => {
            let_go_of_reply(of_rows);
            Err(fail)
        }
    }
}

/// What the line says.
#[tactic(auto, using(crate::proofs::MadeChanges::read_is))]
fn read(alloc: Global, line: &[u8], plain: &Plain) -> Result<Result<Option<Command>, Refusal>, Fail>
    ensures { IfOk result (λ said. IfOk said (λ c. IfSome c (IsCommand plain.now.realm))) }
{
    match parse_line(alloc, line, plain.state().realm.as_slice()) {
        Ok(said) => Ok(Ok(said)),
        Err(Stop::Refused(why)) => Ok(Err(why)),
        Err(Stop::Halt(_)) => Err(Fail::from("no memory")),
    }
}

/// The command that the line says.
pub(crate) fn command_of(alloc: Global, line: &[u8], plain: &Plain) -> Result<Command, Fail>
    ensures { IfOk result (IsCommand plain.now.realm) }
{
    match read(alloc, line, plain)? {
        Ok(said) => match said {
            Some(command) => Ok(command),
            None => Err(Fail::from("a command")),
        },
        Err(_) => Err(Fail::from("a command")),
    }
}

// ---- tables

/// Compares the text of a reply, which ends with a line feed.
fn check_text(rt: &impl Abort, text: &[u8], line: &[u8], wanted: &str) -> Result<(), Fail> {
    let Some(said) = text.strip_suffix(b"\n") else {
        return Err(Fail::from("a line feed"));
    };
    assert_eq!(rt; said, wanted.as_bytes(), "{line:?}");
    Ok(())
}

fn check_reply(
    rt: &impl Abort,
    alloc: Global,
    reply: &Reply,
    line: &[u8],
    wanted: &str,
) -> Result<(), Fail> {
    let text = print_reply(alloc, reply)?;
    check_text(rt, text.as_slice(), line, wanted)
}

fn check_refusal(
    rt: &impl Abort,
    alloc: Global,
    why: Refusal,
    line: &[u8],
    wanted: &str,
) -> Result<(), Fail> {
    let reply = Reply::Refused(why);
    let checked = check_reply(rt, alloc, &reply, line, wanted);
    let_go_of_reply(Some(reply));
    checked
}

/// Compares both replies, the one over the rows where no file decides the line.
fn check_replies(
    rt: &impl Abort,
    alloc: Global,
    of_rows: &Option<Reply>,
    of_state: &Reply,
    line: &[u8],
    wanted: &str,
) -> Result<(), Fail> {
    if let Some(reply) = of_rows {
        check_reply(rt, alloc, reply, line, wanted)?;
    }
    check_reply(rt, alloc, of_state, line, wanted)
}

/// Performs the command on both sides, and compares both replies.
fn check_command(
    rt: &impl Abort,
    alloc: Global,
    database: &mut Database,
    client: &Name,
    acl: Option<&Acl>,
    command: &Command,
    line: &[u8],
    wanted: &str,
) -> Result<(), Fail>
    requires { IsCommand database.old.plain.realm command.now }
{
    let (of_rows, of_state) = answers(alloc, database, client, acl, command)?;
    let checked = check_replies(rt, alloc, &of_rows, &of_state, line, wanted);
    let_go_of_reply(of_rows);
    let_go_of_reply(Some(of_state));
    checked
}

fn check_nothing(rt: &impl Abort, wanted: &str) {
    assert_eq!(rt; wanted, "");
}

/// Gives a line, and compares what is answered on both sides.
pub(crate) fn check_line(
    rt: &impl Abort,
    alloc: Global,
    database: &mut Database,
    client: &Name,
    acl: Option<&Acl>,
    line: &[u8],
    wanted: &str,
) -> Result<(), Fail> {
    match read(alloc, line, &database.plain)? {
        Ok(Some(command)) => {
            let checked = check_command(rt, alloc, database, client, acl, &command, line, wanted);
            let_go_of_command(command);
            checked
        }
        Ok(None) => {
            check_nothing(rt, wanted);
            Ok(())
        }
        Err(why) => check_refusal(rt, alloc, why, line, wanted),
    }
}

fn access(alloc: Global, list: Option<&str>) -> Result<Option<Acl>, Fail> {
    let Some(list) = list else {
        return Ok(None);
    };
    if list.len() > 200 {
        return Err(Fail::from("a short list"));
    }
    Ok(Some(Acl::read(alloc, list.as_bytes(), REALM)?))
}

/// Gives a line of a client under an access list, where there is one.
pub(crate) fn check_case(
    rt: &impl Abort,
    alloc: Global,
    database: &mut Database,
    list: Option<&str>,
    client: &str,
    line: &[u8],
    wanted: &str,
) -> Result<(), Fail> {
    let acl = access(alloc, list)?;
    let client = parse_name(alloc, client.as_bytes(), REALM)?;
    check_line(rt, alloc, database, &client, acl.as_ref(), line, wanted)
}

/// Gives the lines one after another, and compares what is answered.
pub(crate) fn check_cases(
    rt: &impl Abort,
    alloc: Global,
    database: &mut Database,
    cases: &[Case],
) -> Result<(), Fail> {
    for (list, client, line, wanted) in cases {
        check_case(rt, alloc, database, *list, client, line.as_bytes(), wanted)?;
    }
    Ok(())
}

/// Gives the lines of one second after those of another, and compares what is answered.
pub(crate) fn check_seconds(
    rt: &impl Abort,
    alloc: Global,
    database: &mut Database,
    seconds: &[Second],
) -> Result<(), Fail> {
    for (secs, cases) in seconds {
        database.secs = *secs;
        check_cases(rt, alloc, database, cases)?;
    }
    Ok(())
}

/// Gives the lines of the administrator of the machine, who has no access list.
pub(crate) fn check_turns(
    rt: &impl Abort,
    alloc: Global,
    database: &mut Database,
    turns: &[Turn],
) -> Result<(), Fail> {
    for (line, wanted) in turns {
        check_case(rt, alloc, database, None, LOCAL, line.as_bytes(), wanted)?;
    }
    Ok(())
}

/// Gives these lines over a new database, which nothing more is asked of.
pub(crate) fn check_session(rt: &impl Abort, alloc: Global, turns: &[Turn]) -> Result<(), Fail> {
    let mut database = created(alloc)?;
    check_turns(rt, alloc, &mut database, turns)
}

/// Gives these lines over a new database.
pub(crate) fn check_created(
    rt: &impl Abort,
    alloc: Global,
    turns: &[Turn],
) -> Result<Database, Fail> {
    let mut database = created(alloc)?;
    check_turns(rt, alloc, &mut database, turns)?;
    Ok(database)
}

/// Whether the answers are that a change was made, on both sides alike.
fn are_accepted(
    rt: &impl Abort,
    alloc: Global,
    of_rows: &Option<Reply>,
    of_state: &Reply,
) -> Result<bool, Fail> {
    let wanted = print_reply(alloc, of_state)?;
    if let Some(reply) = of_rows {
        let said = print_reply(alloc, reply)?;
        assert_eq!(rt; said.as_slice(), wanted.as_slice());
    }
    Ok(wanted.as_slice().starts_with(b"ok "))
}

fn is_command_accepted(
    rt: &impl Abort,
    alloc: Global,
    database: &mut Database,
    client: &Name,
    command: &Command,
) -> Result<bool, Fail>
    requires { IsCommand database.old.plain.realm command.now }
{
    let (of_rows, of_state) = answers(alloc, database, client, None, command)?;
    let accepted = are_accepted(rt, alloc, &of_rows, &of_state);
    let_go_of_reply(of_rows);
    let_go_of_reply(Some(of_state));
    accepted
}

fn is_line_accepted(
    rt: &impl Abort,
    alloc: Global,
    database: &mut Database,
    client: &Name,
    line: &[u8],
) -> Result<bool, Fail> {
    let command = command_of(alloc, line, &database.plain)?;
    let accepted = is_command_accepted(rt, alloc, database, client, &command);
    let_go_of_command(command);
    accepted
}

/// Whether a line of the administrator of the machine is accepted, on both sides alike.
pub(crate) fn is_accepted(
    rt: &impl Abort,
    alloc: Global,
    database: &mut Database,
    line: &[u8],
) -> Result<bool, Fail> {
    let client = parse_name(alloc, LOCAL.as_bytes(), REALM)?;
    is_line_accepted(rt, alloc, database, &client, line)
}

/// Looks whether all keys of the rows open under the master keys.
pub(crate) fn check_sound(alloc: Global, database: &Database) -> Result<(), Fail> {
    let state = database.plain.state();
    let secs = state.point.time.secs();
    let realm = state.realm.as_slice();
    check_rows(alloc, &database.rows, &database.masters, realm, secs)?;
    Ok(())
}

/// So many of a letter.
pub(crate) fn push_letters(out: &mut Vec<u8>, letter: u8, count: usize) -> Result<(), Fail> {
    for _ in 0..count {
        out.push(letter)?;
    }
    Ok(())
}

//! The refusal of a row where there are as many as there may be.

ghost use Rattle.kadm_commands.specs.Commands.{IsCommand};

use crate::databases::{
    Case, Database, LOCAL, REALM, Turn, answer_of_rows, check_cases, check_created, command_of,
    let_go_of_command, let_go_of_reply, reopen,
};
use kadm_commands::{Command, Reply};
use princ_name::{Name, parse_name};
use std::alloc::Global;
use std::process::Abort;
use std::test::Fail;

/// A list by which everybody may do all but extract keys.
const ANY: Option<&str> = Some("* *\n");

/// A list by which the client may look at principals alone.
const DENIES: Option<&str> = Some("joe i\n");

/// The policy whose classes are asked for.
const STD: [Turn; 1] = [("addpol -minclasses 3 std", "ok 2 1700000000.000000")];

/// So many policies fill the database beside its three principals and the policy above.
const MORE: u32 = 99_996;

fn is_done(reply: &Option<Reply>) -> bool {
    match reply {
        Some(Reply::Done(_)) => true,
        _ => false,
    }
}

/// Performs the command over the rows alone.
fn perform(
    alloc: Global,
    database: &mut Database,
    client: &Name,
    command: &Command,
) -> Result<(), Fail>
    requires { IsCommand database.old.plain.realm command.now }
{
    let reply = answer_of_rows(alloc, database, client, None, command)?;
    let done = is_done(&reply);
    let_go_of_reply(reply);
    if done {
        Ok(())
    } else {
        Err(Fail::from("one policy more"))
    }
}

fn give(alloc: Global, database: &mut Database, client: &Name, line: &[u8]) -> Result<(), Fail> {
    let command = command_of(alloc, line, &database.plain)?;
    let performed = perform(alloc, database, client, &command);
    let_go_of_command(command);
    performed
}

/// Gives a line of the administrator of the machine over the rows alone.
fn add_policy(
    alloc: Global,
    database: &mut Database,
    client: &Name,
    number: u32,
) -> Result<(), Fail> {
    let line = format!(in alloc; "addpol {number:05}")?;
    give(alloc, database, client, line.as_bytes())
}

fn add_policies(alloc: Global, database: &mut Database, client: &Name) -> Result<(), Fail> {
    for number in 0..MORE {
        add_policy(alloc, database, client, number)?;
    }
    Ok(())
}

fn fill(alloc: Global, database: &mut Database) -> Result<(), Fail> {
    let client = parse_name(alloc, LOCAL.as_bytes(), REALM)?;
    add_policies(alloc, database, &client)
}

fn fill_and_reopen(alloc: Global, database: &mut Database) -> Result<(), Fail> {
    fill(alloc, database)?;
    reopen(alloc, database)
}

/// A database with as many rows as there may be. They are added to the rows, and the plain state is opened of these at
/// the end, since a step of it would copy all of them each time.
fn filled(rt: &impl Abort, alloc: Global) -> Result<Database, Fail> {
    let mut database = check_created(rt, alloc, &STD)?;
    fill_and_reopen(alloc, &mut database)?;
    Ok(database)
}

/// All that may be said of a new principal or a new policy comes before there being no room for it.
static ORDER: [Case; 13] = [
    (DENIES, "joe", "addprinc -nokey bob", "err 7 Denied 1"),
    (ANY, "joe", "addprinc -nokey K/M", "err 8 Protected"),
    (
        ANY,
        "joe",
        "addprinc -nokey krbtgt/EXAMPLE.ORG",
        "err 3 Duplicate",
    ),
    (
        ANY,
        "joe",
        "addprinc -policy none -nokey bob",
        "err 5 UnknownPolicy",
    ),
    (ANY, "joe", "addprinc -pw \"\" bob", "err 9 PassTooShort"),
    (
        ANY,
        "joe",
        "addprinc -policy std -pw abcdefgh bob",
        "err 10 PassClasses",
    ),
    (
        ANY,
        "joe",
        "addprinc -policy std -pw Abcdefg1 bob",
        "err 29 RowsFull 100000",
    ),
    (
        ANY,
        "joe",
        "addprinc -randkey bob",
        "err 29 RowsFull 100000",
    ),
    (
        None,
        "admin/local",
        "addprinc -nokey bob",
        "err 29 RowsFull 100000",
    ),
    (DENIES, "joe", "addpol more", "err 7 Denied 1"),
    (ANY, "joe", "addpol std", "err 3 Duplicate"),
    (ANY, "joe", "addpol more", "err 29 RowsFull 100000"),
    (None, "admin/local", "addpol more", "err 29 RowsFull 100000"),
];

/// What adds no row is done, and where one has gone there is room for one.
static ROOM: [Case; 10] = [
    (
        ANY,
        "joe",
        "modpol -minlength 2 std",
        "ok 2 1700000000.000000",
    ),
    (
        ANY,
        "joe",
        "renprinc krbtgt/EXAMPLE.ORG bob",
        "ok 3 1700000000.000000",
    ),
    (
        ANY,
        "joe",
        "setstr bob color blue",
        "ok 4 1700000000.000000",
    ),
    (ANY, "joe", "delpol 00000", "ok 5 1700000000.000000"),
    (
        ANY,
        "joe",
        "addprinc -nokey carol",
        "ok 6 1700000000.000000",
    ),
    (ANY, "joe", "addpol more", "err 29 RowsFull 100000"),
    (ANY, "joe", "delprinc carol", "ok 7 1700000000.000000"),
    (ANY, "joe", "addpol more", "ok 8 1700000000.000000"),
    (
        ANY,
        "joe",
        "addprinc -nokey carol",
        "err 29 RowsFull 100000",
    ),
    (ANY, "joe", "addpol most", "err 29 RowsFull 100000"),
];

fn check_full(rt: &impl Abort, alloc: Global, database: &mut Database) -> Result<(), Fail> {
    assert_eq!(rt; database.rows.princs().len(), 3);
    assert_eq!(rt; database.rows.policies().len(), 99_997);
    check_cases(rt, alloc, database, &ORDER)?;
    check_cases(rt, alloc, database, &ROOM)
}

#[test]
fn no_row_is_added_to_a_full_database(rt: HostRuntime) -> Result<(), Fail> {
    let mut database = filled(&rt, rt.alloc())?;
    check_full(&rt, rt.alloc(), &mut database)
}

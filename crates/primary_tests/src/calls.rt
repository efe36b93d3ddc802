//! Calls of a primary over a disk in memory, one in each function. Their contracts are long: since these functions have
//! none, what stands above is proved without them.

ghost use Rattle.std.specs.Prelude.{◌≡◌, ◌≤◌, IfOk, IfSome, true};
ghost use Rattle.kadm_commands.specs.Commands.{IsCommand};
ghost use Rattle.kdb_model.specs.Steps.{is_one_step};

use acl_text::Acl;
use dump_text::Dump;
use first_rows::CreateSpec;
use kadm_commands::{Command, NameList, Reply};
use kadm_wire::parse_line;
use kdb_base::{Blob, Etype, Halt, Point, Stop, Time};
use kdb_disk::MemoryDisk;
use plain_keys::Password;
use primary_core::dumping::Snapshot;
use primary_core::{Ready, prepare};
use primary_disk::DiskPrimary;
use primary_rekeying::TakeAnswer;
use princ_name::{Name, Realm, is_master, is_realm, parse_name};
use rekey_work::{Rewrapped, Settled, Taken, rewrap_outside};
use std::alloc::Global;
use std::test::Fail;

pub(crate) type Primary = DiskPrimary<MemoryDisk>;

/// A primary, or why there is none and the disk handed back.
pub(crate) type Opening = Result<Primary, (MemoryDisk, Stop)>;

/// Seconds since 1970, and microseconds.
pub(crate) type At = (u32, u32);

const REALM: &[u8] = b"EXAMPLE.ORG";

pub(crate) fn time(at: At) -> Time {
    Time::new(at.0, at.1 % 1_000_000)
}

/// The random bytes of the change that comes behind this serial.
fn block(sno: u32) -> [u8; 2048] {
    [(sno % 256) as u8; 2048]
}

// ---- who asks

/// Who asks, under which access list where there is one, and when.
#[derive(Drop)]
pub(crate) struct Asker {
    pub client: Name,
    pub acl: Option<Acl>,
    pub now: Time,
}

fn access(alloc: Global, list: Option<&str>) -> Result<Option<Acl>, Fail> {
    let Some(list) = list else {
        return Ok(None);
    };
    if list.len() > 200 {
        return Err(Fail::from("a short list"));
    }
    Ok(Some(Acl::read(alloc, list.as_bytes(), REALM)?))
}

pub(crate) fn asker_of(
    alloc: Global,
    list: Option<&str>,
    client: &str,
    at: At,
) -> Result<Asker, Fail> {
    let acl = access(alloc, list)?;
    let client = parse_name(alloc, client.as_bytes(), REALM)?;
    let now = time(at);
    Ok(Asker { client, acl, now })
}

// ---- made and opened

fn password_of(alloc: Global, text: Option<&str>) -> Result<Option<Password>, Fail> {
    let Some(text) = text else {
        return Ok(None);
    };
    Ok(Some(Password::from_bytes(alloc, text.as_bytes())?))
}

fn spec(alloc: Global, password: Option<&str>, size: u32) -> Result<CreateSpec, Fail> {
    if !is_realm(REALM) || size < 2 || size > 10_000 {
        return Err(Fail::from("a realm and a size"));
    }
    let realm = Realm::from_bytes(alloc, REALM)?;
    let password = password_of(alloc, password)?;
    Ok(CreateSpec::new(realm, password, Etype::Aes256, size))
}

/// A database made on this disk, with a log of so many entries. Its master key is that of the
/// password where there is one, else a random one.
pub(crate) fn create(
    alloc: Global,
    disk: MemoryDisk,
    password: Option<&str>,
    size: u32,
    now: Time,
) -> Result<Opening, Fail> {
    let spec = spec(alloc, password, size)?;
    let opening = DiskPrimary::create(alloc, disk, &spec, now, &block(0));
    drop(spec);
    Ok(opening)
}

fn is_size(size: Option<u32>) -> bool
    ensures { result ≡ true → IfSome size (λ n. (2 ≤ n) × (n ≤ 10000)) }
{
    match size {
        Some(size) => 2 <= size && size <= 10_000,
        None => true,
    }
}

/// The database on this disk, opened with a log of so many entries where a size is given, and so many places for dumps.
pub(crate) fn recover(
    alloc: Global,
    disk: MemoryDisk,
    size: Option<u32>,
    places: u32,
    now: Time,
) -> Result<Opening, Fail> {
    if !is_size(size) || places < 1 || places > 16 {
        return Err(Fail::from("a size and places"));
    }
    Ok(DiskPrimary::recover(alloc, disk, size, places, now))
}

// ---- lines

/// What the line says.
#[tactic(auto, using(crate::proofs::Reading::read_is))]
fn read(alloc: Global, line: &[u8], realm: &[u8]) -> Result<Option<Command>, Fail>
    ensures { IfOk result (λ said. IfSome said (IsCommand realm.now)) }
{
    match parse_line(alloc, line, realm) {
        Ok(said) => Ok(said),
        Err(stop) => Err(Fail::from(stop)),
    }
}

/// The command that the line says.
fn command_of(alloc: Global, line: &[u8], realm: &[u8]) -> Result<Command, Fail>
    ensures { IfOk result (IsCommand realm.now) }
{
    match read(alloc, line, realm)? {
        Some(command) => Ok(command),
        None => Err(Fail::from("a command")),
    }
}

/// Whether one step does the command.
fn is_one_step(command: &Command) -> bool
    ensures { result ≡ is_one_step command.now }
{
    match command {
        Command::RekeyPrincs(_) => false,
        Command::Dump => false,
        _ => true,
    }
}

/// The command that the line says, ready to be performed.
fn ready_for(alloc: Global, line: &[u8], realm: &[u8]) -> Result<Ready, Fail>
    ensures command { IfOk result (λ r. IsCommand realm.now r.command) }
    ensures one { IfOk result (λ r. is_one_step r.command ≡ true) }
{
    let command = command_of(alloc, line, realm)?;
    if !is_one_step(&command) {
        drop(command);
        return Err(Fail::from("a line of one step"));
    }
    let ready = prepare(alloc, &command, realm);
    drop(command);
    Ok(ready?)
}

fn perform(
    alloc: Global,
    primary: &mut Primary,
    asker: &Asker,
    ready: &Ready,
) -> Result<Reply, Halt>
    requires command { IsCommand primary.old.opened.kept.realm ready.now.command }
    requires one { is_one_step ready.now.command ≡ true }
{
    let random = block(primary.store().point().sno);
    let acl = asker.acl.as_ref();
    primary.perform(alloc, &asker.client, acl, ready, asker.now, &random)
}

/// What the line comes to.
pub(crate) fn give(
    alloc: Global,
    primary: &mut Primary,
    asker: &Asker,
    line: &[u8],
) -> Result<Result<Reply, Halt>, Fail> {
    let ready = ready_for(alloc, line, primary.store().realm().as_slice())?;
    let answer = perform(alloc, primary, asker, &ready);
    drop(ready);
    Ok(answer)
}

// ---- calls that change

pub(crate) fn reset_log(alloc: Global, primary: &mut Primary, now: Time) -> Result<Point, Stop> {
    primary.reset_log(alloc, now)
}

pub(crate) fn load(
    alloc: Global,
    primary: &mut Primary,
    dump: Dump,
    now: Time,
) -> Result<Point, Stop> {
    primary.load(alloc, dump, now)
}

// ---- calls that tell

pub(crate) fn names(
    alloc: Global,
    primary: &Primary,
    asker: &Asker,
    glob: &Option<Blob>,
) -> Result<NameList, Stop> {
    primary.names(alloc, &asker.client, asker.acl.as_ref(), glob)
}

pub(crate) fn begin_dump(
    alloc: Global,
    primary: &mut Primary,
    asker: &Asker,
) -> Result<Snapshot, Stop> {
    primary.begin_dump(alloc, &asker.client, asker.acl.as_ref())
}

// ---- rekeyings

/// Takes the principal of this name.
pub(crate) fn take(
    alloc: Global,
    primary: &Primary,
    name: &[u8],
    now: Time,
) -> Result<TakeAnswer, Fail> {
    if is_master(name) {
        return Err(Fail::from("an ordinary principal"));
    }
    Ok(primary.rekey_take(alloc, name, now)?)
}

pub(crate) fn rewrap(alloc: Global, taken: Taken) -> Result<Rewrapped, Fail> {
    match rewrap_outside(alloc, taken, &[5; 512]) {
        Ok(made) => Ok(made),
        Err((taken, _)) => {
            drop(taken);
            Err(Fail::from("no memory"))
        }
    }
}

pub(crate) fn settle(
    alloc: Global,
    primary: &mut Primary,
    made: Rewrapped,
    now: Time,
) -> Result<Settled, Stop> {
    primary.rekey_settle(alloc, made, now)
}

/// Rekeys the principal of this name at once.
pub(crate) fn rekey(
    alloc: Global,
    primary: &mut Primary,
    name: &[u8],
    now: Time,
) -> Result<Result<Settled, Stop>, Fail> {
    if is_master(name) {
        return Err(Fail::from("an ordinary principal"));
    }
    Ok(primary.rekey_now(alloc, name, now, &[6; 512]))
}

use acl_text::{Acl, AclFault, Wanted, restrict};
use kdb_base::{Blob, Time};
use princ_name::{Name, parse_name};
use std::alloc::Global;
use std::process::Abort;
use std::test::*;

const REALM: &[u8] = b"EXAMPLE.ORG";

/// The rules of a short text.
fn read(alloc: Global, text: &[u8]) -> Result<Acl, AclFault> {
    if text.len() > 1000 {
        return Err(AclFault::MemoryOut);
    }
    Acl::read(alloc, text, REALM)
}

const RULES: &[u8] = b"joe/admin ADMCIL */root\n*/admin *\n*/user ci *1\n*/text i \\*1\n";

/// A client, an operation's letter, a target, and the line that decides and its answer.
const DECIDED: [(&[u8], u8, &[u8], u32, bool); 8] = [
    (b"joe/admin", b'd', b"x/root", 1, false),
    (b"joe/admin", b'd', b"bob", 2, true),
    (b"joe/admin", b'e', b"bob", 2, false),
    (b"bob/user", b'i', b"bob", 3, true),
    (b"bob/user", b'i', b"carol", 0, false),
    (b"bob/user@OTHER", b'i', b"bob", 0, false),
    (b"bob/text", b'i', b"bob", 0, false),
    (b"bob/text", b'i', b"*1", 4, true),
];

/// The line that decides, its answer, and whether it has restrictions.
fn decided(acl: &Acl, client: &Name, letter: u8, target: &Name) -> (u32, bool, bool) {
    let verdict = acl.decide(client, letter, Some(target));
    (verdict.line, verdict.allowed, verdict.limits.is_some())
}

fn check_decided(
    rt: &impl Abort,
    alloc: Global,
    acl: &Acl,
    client: &[u8],
    letter: u8,
    target: &[u8],
    line: u32,
    allowed: bool,
) -> Result<(), Fail> {
    let client = parse_name(alloc, client, REALM)?;
    let target = parse_name(alloc, target, REALM)?;
    let found = decided(acl, &client, letter, &target);
    assert_eq!(rt; found, (line, allowed, false));
    Ok(())
}

fn check_rules(rt: &impl Abort, alloc: Global, acl: &Acl) -> Result<(), Fail> {
    for (client, letter, target, line, allowed) in DECIDED.iter() {
        check_decided(rt, alloc, acl, client, *letter, target, *line, *allowed)?;
    }
    Ok(())
}

#[test]
fn first_line_decides(rt: HostRuntime) -> Result<(), Fail> {
    let acl = read(rt.alloc(), RULES)?;
    check_rules(&rt, rt.alloc(), &acl)
}

/// Texts, and the number of the line that is bad; 0 where none is.
const READ: [(&[u8], u32); 29] = [
    (b"", 0),
    (b"\n\njoe a", 0),
    (b"joe Q", 1),
    (b" ", 1),
    (b"#\n\njoe\n", 3),
    (b"joe \\\nQ\n", 1),
    (b"# comment\\\njoe Q\n", 0),
    (b"# comment\\\njoe Q\njoe Q\n", 3),
    (b"joe@ a", 1),
    (b"* a *1", 1),
    (b"*/* a *2", 0),
    (b"*/* a *3", 1),
    (b"*/x@* a *2/*0/*12@*1", 0),
    (b"joe a \\*1", 0),
    (b"joe a *\\1", 0),
    (b"\\*/* a *2", 1),
    (b"\\*/*1 a *1", 1),
    (b"* a \\*1/*0/*a", 0),
    (b"joe a +needchange", 0),
    (b"joe a * +nonsense", 1),
    (b"joe a * +needchange -needchange", 0),
    (b"joe a * -maxlife", 1),
    (b"joe a * -maxlife never", 1),
    (b"joe a * -maxlife 1h -maxrenewlife 1d", 0),
    (b"joe a * -maxlife 1h -maxlife 1h", 1),
    (b"joe a * -policy p -clearpolicy", 1),
    (b"joe a * -clearpolicy -clearpolicy", 1),
    (b"joe a * -policy -clearpolicy", 1),
    (b"joe a\\", 1),
];

fn bad_line(alloc: Global, text: &[u8]) -> u32 {
    match read(alloc, text) {
        Ok(_) => 0,
        Err(AclFault::BadAcl { line }) => line,
        Err(AclFault::MemoryOut) => 99,
    }
}

#[test]
fn first_bad_line_refuses(rt: HostRuntime) -> Result<(), Fail> {
    for (text, line) in READ.iter() {
        assert_eq!(rt; bad_line(rt.alloc(), text), *line, "{text:?}");
    }
    Ok(())
}

fn client_named(alloc: Global) -> Result<Name, AclFault> {
    match parse_name(alloc, b"ops/x", REALM) {
        Ok(client) => Ok(client),
        Err(_) => Err(AclFault::MemoryOut),
    }
}

/// Puts the restrictions for this client in force, where there are some.
fn restrict_by(
    alloc: Global,
    acl: &Acl,
    client: &Name,
    wanted: &mut Wanted,
) -> Result<(), AclFault> {
    match acl.decide(client, b'a', None).limits {
        Some(limits) => match restrict(alloc, limits, wanted, Time::new(1000, 0)) {
            Ok(()) => Ok(()),
            Err(_) => Err(AclFault::MemoryOut),
        },
        None => Ok(()),
    }
}

/// Puts the restrictions of the only line in force, where an operation has no target.
fn restrict_fields(alloc: Global, text: &[u8], wanted: &mut Wanted) -> Result<(), AclFault> {
    let acl = read(alloc, text)?;
    let client = client_named(alloc)?;
    restrict_by(alloc, &acl, &client, wanted)
}

fn fields(attributes: u32, time: u32) -> Wanted {
    Wanted {
        attributes,
        policy: None,
        expire: time,
        pw_expire: time,
        max_life: time,
        max_renew: time,
    }
}

const LIMITED: [&[u8]; 2] = [
    b"ops/* a * +requires_preauth -maxlife 1h",
    b"ops/* a * \\\n+requires_preauth -maxlife 1h\n",
];

fn check_verdicts(rt: &impl Abort, acl: &Acl, client: &Name) {
    let verdict = acl.decide(client, b'd', None);
    assert!(rt; verdict.line == 1 && !verdict.allowed);
    let verdict = acl.decide(client, b'a', None);
    assert!(rt; verdict.line == 1 && verdict.allowed);
    let limits = verdict.limits.expect(rt, "limits");
    assert_eq!(rt; (limits.set, limits.clear), (0x80, 0));
    assert_eq!(rt; limits.max_life, Some(3600));
}

fn check_limits(rt: &impl Abort, alloc: Global, text: &[u8]) -> Result<(), Fail> {
    let acl = read(alloc, text)?;
    let client = parse_name(alloc, b"ops/x", REALM)?;
    check_verdicts(rt, &acl, &client);
    Ok(())
}

fn check_life(rt: &impl Abort, alloc: Global, text: &[u8], life: u32) -> Result<(), Fail> {
    let mut wanted = fields(0x200, life);
    restrict_fields(alloc, text, &mut wanted)?;
    assert_eq!(rt; wanted.attributes, 0x280);
    assert_eq!(rt; wanted.max_life, 3600);
    assert_eq!(rt; wanted.max_renew, life);
    Ok(())
}

#[test]
fn restrictions_are_put_in_force(rt: HostRuntime) -> Result<(), Fail> {
    for text in LIMITED.iter() {
        check_limits(&rt, rt.alloc(), text)?;
        check_life(&rt, rt.alloc(), text, 7200)?;
        check_life(&rt, rt.alloc(), text, 0)?;
    }
    Ok(())
}

const LOWERING: &[u8] =
    b"ops/* a * -policy p -needchange -expire 1d -pwexpire 4294967295 -maxrenewlife 0";

fn check_lowered(rt: &impl Abort, alloc: Global) -> Result<(), Fail> {
    let mut wanted = fields(0x280, 100_000);
    restrict_fields(alloc, LOWERING, &mut wanted)?;
    assert_eq!(rt; wanted.attributes, 0x80);
    assert!(rt;
        wanted
            .policy
            .map_or(false, |name| name.as_slice() == b"p".as_slice())
    );
    assert_eq!(rt; (wanted.expire, wanted.pw_expire), (87_400, 100_000));
    assert_eq!(rt; (wanted.max_life, wanted.max_renew), (100_000, 0));
    Ok(())
}

fn check_never_lowered(rt: &impl Abort, alloc: Global) -> Result<(), Fail> {
    let mut wanted = fields(0, 0);
    restrict_fields(alloc, LOWERING, &mut wanted)?;
    assert_eq!(rt; (wanted.expire, wanted.pw_expire), (87_400, 4_294_967_295));
    Ok(())
}

fn check_policy_cleared(rt: &impl Abort, alloc: Global) -> Result<(), Fail> {
    let policy = Blob::from_bytes(alloc, b"p")?;
    let mut wanted = fields(0, 0);
    wanted.policy = Some(policy);
    restrict_fields(alloc, b"ops/* a * -clearpolicy", &mut wanted)?;
    assert!(rt; wanted.policy.is_none());
    Ok(())
}

#[test]
fn times_are_lowered(rt: HostRuntime) -> Result<(), Fail> {
    check_lowered(&rt, rt.alloc())?;
    check_never_lowered(&rt, rt.alloc())?;
    check_policy_cleared(&rt, rt.alloc())
}

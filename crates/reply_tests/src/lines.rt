use kadm_commands::{
    AddPrinc, ChangeKeys, Command, DelString, ModPolicy, ModPrinc, PolicyChoice, PrincOptions,
    PurgeKeys, RenPrinc, SetString, UseMaster,
};
use kadm_wire::parse_line;
use kdb_base::{Blob, Etype, Field, MemoryOut, Refusal, Stop};
use plain_keys::{Etypes, NewKeys};
use policy_rules::Policy;
use princ_name::{Name, print_name};
use std::alloc::Global;
use std::process::Abort;
use std::test::*;

// A word and a value, where there is one.
fn put_value(
    alloc: Global,
    out: &mut Vec<u8>,
    word: &str,
    value: Option<u32>,
) -> Result<(), MemoryOut> {
    if let Some(value) = value {
        let text = format!(in alloc; " {word} {value}")?;
        out.extend_from_slice(text.as_bytes())?;
    }
    Ok(())
}

fn put_word(out: &mut Vec<u8>, word: &[u8]) -> Result<(), MemoryOut> {
    out.push(b' ')?;
    out.extend_from_slice(word)?;
    Ok(())
}

fn put_name(alloc: Global, out: &mut Vec<u8>, name: &Name) -> Result<(), MemoryOut> {
    let name = print_name(alloc, name)?;
    put_word(out, name.as_slice())
}

fn put_options(alloc: Global, out: &mut Vec<u8>, options: &PrincOptions) -> Result<(), MemoryOut> {
    put_value(alloc, out, "expire", options.expire)?;
    put_value(alloc, out, "pwexpire", options.pw_expire)?;
    put_value(alloc, out, "maxlife", options.max_life)?;
    put_value(alloc, out, "maxrenewlife", options.max_renew)?;
    for flag in options.flags.as_slice() {
        let word = if flag.set { "set" } else { "clear" };
        put_value(alloc, out, word, Some(flag.bit))?;
    }
    Ok(())
}

fn put_policy(out: &mut Vec<u8>, policy: &Option<PolicyChoice>) -> Result<(), MemoryOut> {
    match policy {
        Some(PolicyChoice::Named(name)) => put_word(out, name.as_slice()),
        Some(PolicyChoice::Cleared) => put_word(out, b"cleared"),
        None => Ok(()),
    }
}

fn put_etypes(alloc: Global, out: &mut Vec<u8>, etypes: &Etypes) -> Result<(), MemoryOut> {
    for etype in etypes.as_slice() {
        put_value(alloc, out, "type", Some(u32::from(etype.number())))?;
    }
    Ok(())
}

fn put_keys(alloc: Global, out: &mut Vec<u8>, keys: &NewKeys) -> Result<(), MemoryOut> {
    match keys {
        NewKeys::Random(etypes) => {
            put_word(out, b"random")?;
            put_etypes(alloc, out, etypes)
        }
        NewKeys::Password(password, etypes) => {
            put_word(out, b"password")?;
            put_word(out, password.as_slice())?;
            put_etypes(alloc, out, etypes)
        }
    }
}

fn put_adding(alloc: Global, out: &mut Vec<u8>, add: &AddPrinc) -> Result<(), MemoryOut> {
    put_name(alloc, out, &add.name)?;
    if let Some(keys) = &add.keys {
        put_keys(alloc, out, keys)?;
    }
    put_policy(out, &add.policy)?;
    put_options(alloc, out, &add.options)
}

fn put_modifying(alloc: Global, out: &mut Vec<u8>, modify: &ModPrinc) -> Result<(), MemoryOut> {
    put_name(alloc, out, &modify.name)?;
    put_policy(out, &modify.policy)?;
    put_options(alloc, out, &modify.options)
}

fn put_changing(alloc: Global, out: &mut Vec<u8>, change: &ChangeKeys) -> Result<(), MemoryOut> {
    put_name(alloc, out, &change.name)?;
    put_keys(alloc, out, &change.keys)?;
    if change.keep_old {
        put_word(out, b"keepold")?;
    }
    Ok(())
}

fn put_rules(alloc: Global, out: &mut Vec<u8>, policy: &Policy) -> Result<(), MemoryOut> {
    put_word(out, policy.name())?;
    put_value(alloc, out, "maxlife", Some(policy.max_life()))?;
    put_value(alloc, out, "minlife", Some(policy.min_life()))?;
    put_value(
        alloc,
        out,
        "minlength",
        Some(u32::from(policy.min_length())),
    )?;
    put_value(
        alloc,
        out,
        "minclasses",
        Some(u32::from(policy.min_classes())),
    )?;
    put_value(alloc, out, "history", Some(u32::from(policy.history())))
}

fn put_changes(alloc: Global, out: &mut Vec<u8>, policy: &ModPolicy) -> Result<(), MemoryOut> {
    put_word(out, policy.name.as_slice())?;
    put_value(alloc, out, "maxlife", policy.max_life)?;
    put_value(alloc, out, "minlife", policy.min_life)?;
    put_value(alloc, out, "minlength", policy.min_length.map(u32::from))?;
    put_value(alloc, out, "minclasses", policy.min_classes.map(u32::from))?;
    put_value(alloc, out, "history", policy.history.map(u32::from))
}

fn put_glob(out: &mut Vec<u8>, glob: &Option<Blob>) -> Result<(), MemoryOut> {
    match glob {
        Some(glob) => put_word(out, glob.as_slice()),
        None => Ok(()),
    }
}

fn put_renaming(alloc: Global, out: &mut Vec<u8>, rename: &RenPrinc) -> Result<(), MemoryOut> {
    put_name(alloc, out, &rename.name)?;
    put_name(alloc, out, &rename.new_name)
}

fn put_purging(alloc: Global, out: &mut Vec<u8>, purge: &PurgeKeys) -> Result<(), MemoryOut> {
    put_name(alloc, out, &purge.name)?;
    put_value(alloc, out, "keep", purge.keep.map(u32::from))
}

fn put_setting(alloc: Global, out: &mut Vec<u8>, set: &SetString) -> Result<(), MemoryOut> {
    put_name(alloc, out, &set.name)?;
    put_word(out, set.key.as_slice())?;
    put_word(out, set.value.as_slice())
}

fn put_unsetting(alloc: Global, out: &mut Vec<u8>, del: &DelString) -> Result<(), MemoryOut> {
    put_name(alloc, out, &del.name)?;
    put_word(out, del.key.as_slice())
}

// What a command on one principal has behind its word.
fn put_princ(alloc: Global, out: &mut Vec<u8>, command: &Command) -> Result<(), MemoryOut> {
    match command {
        Command::AddPrinc(add) => put_adding(alloc, out, add),
        Command::ModPrinc(modify) => put_modifying(alloc, out, modify),
        Command::ChangeKeys(change) => put_changing(alloc, out, change),
        Command::RenPrinc(rename) => put_renaming(alloc, out, rename),
        Command::PurgeKeys(purge) => put_purging(alloc, out, purge),
        Command::SetString(set) => put_setting(alloc, out, set),
        Command::DelString(del) => put_unsetting(alloc, out, del),
        Command::DelPrinc(name) => put_name(alloc, out, name),
        Command::GetPrinc(name) => put_name(alloc, out, name),
        Command::GetStrings(name) => put_name(alloc, out, name),
        Command::Extract(name) => put_name(alloc, out, name),
        _ => Ok(()),
    }
}

fn put_type(alloc: Global, out: &mut Vec<u8>, etype: &Option<Etype>) -> Result<(), MemoryOut> {
    let number = etype.map(|etype: Etype| u32::from(etype.number()));
    put_value(alloc, out, "type", number)
}

fn put_using(alloc: Global, out: &mut Vec<u8>, used: &UseMaster) -> Result<(), MemoryOut> {
    put_value(alloc, out, "version", Some(u32::from(used.version)))?;
    put_value(alloc, out, "from", used.secs)
}

// What another command has behind its word.
fn put_other(alloc: Global, out: &mut Vec<u8>, command: &Command) -> Result<(), MemoryOut> {
    match command {
        Command::ListPrincs(glob) => put_glob(out, glob),
        Command::RekeyPrincs(glob) => put_glob(out, glob),
        Command::AddPolicy(policy) => put_rules(alloc, out, policy),
        Command::ModPolicy(policy) => put_changes(alloc, out, policy),
        Command::DelPolicy(name) => put_word(out, name.as_slice()),
        Command::GetPolicy(name) => put_word(out, name.as_slice()),
        Command::AddMaster(etype) => put_type(alloc, out, etype),
        Command::UseMaster(used) => put_using(alloc, out, used),
        _ => Ok(()),
    }
}

fn word_of(command: &Command) -> &'static [u8] {
    match command {
        Command::AddPrinc(_) => b"add",
        Command::ModPrinc(_) => b"modify",
        Command::ChangeKeys(_) => b"change",
        Command::RenPrinc(_) => b"rename",
        Command::DelPrinc(_) => b"delete",
        Command::GetPrinc(_) => b"show",
        Command::ListPrincs(_) => b"list",
        Command::PurgeKeys(_) => b"purge",
        Command::SetString(_) => b"set",
        Command::DelString(_) => b"unset",
        Command::GetStrings(_) => b"strings",
        Command::Extract(_) => b"extract",
        Command::AddPolicy(_) => b"addpol",
        Command::ModPolicy(_) => b"modpol",
        Command::DelPolicy(_) => b"delpol",
        Command::GetPolicy(_) => b"getpol",
        Command::ListPolicies => b"listpols",
        Command::GetPrivs => b"privs",
        Command::AddMaster(_) => b"addmaster",
        Command::UseMaster(_) => b"usemaster",
        Command::ListMasters => b"masters",
        Command::PurgeMasters => b"purgemasters",
        Command::RekeyPrincs(_) => b"rekey",
        Command::Stash => b"stash",
        Command::Dump => b"dump",
    }
}

// A command in short.
fn told_command(alloc: Global, command: &Command) -> Result<Blob, MemoryOut> {
    let mut out = word_of(command).to_vec(alloc)?;
    put_princ(alloc, &mut out, command)?;
    put_other(alloc, &mut out, command)?;
    Ok(Blob::from_vec(out))
}

fn told_offset(alloc: Global, offset: u32) -> Result<Blob, MemoryOut> {
    let text = format!(in alloc; "2 {offset}")?;
    Blob::from_bytes(alloc, text.as_bytes())
}

fn told_field(alloc: Global, field: Field) -> Result<Blob, MemoryOut> {
    let field = field.word();
    let text = format!(in alloc; "13 {field}")?;
    Blob::from_bytes(alloc, text.as_bytes())
}

// A refusal of a line in short.
fn told_refusal(alloc: Global, refusal: &Refusal) -> Result<Blob, MemoryOut> {
    match *refusal {
        Refusal::BadLine => Blob::from_bytes(alloc, b"1"),
        Refusal::BadName { offset } => told_offset(alloc, offset),
        Refusal::BadValue { field } => told_field(alloc, field),
        Refusal::LineTooLong => Blob::from_bytes(alloc, b"27"),
        _ => Blob::from_bytes(alloc, b"?"),
    }
}

// What a line says, in short.
fn told(alloc: Global, line: &[u8]) -> Result<Blob, MemoryOut> {
    match parse_line(alloc, line, b"R.ORG") {
        Ok(None) => Blob::from_bytes(alloc, b"skipped"),
        Ok(Some(command)) => told_command(alloc, &command),
        Err(Stop::Refused(refusal)) => told_refusal(alloc, &refusal),
        Err(Stop::Halt(_)) => Err(MemoryOut),
    }
}

// By the rules of the grammar.
const PRINCS: [(&str, &str); 39] = [
    ("addprinc -nokey \"a b\"", "add a b@R.ORG"),
    (
        "addprinc -pw s3cret alice",
        "add alice@R.ORG password s3cret type 18 type 17",
    ),
    (
        "addprinc -pw -pw -e aes256-sha2,aes128-cts:normal -policy std x/y",
        "add x/y@R.ORG password -pw type 20 type 17 std",
    ),
    (
        "add_principal -randkey -clearpolicy c",
        "add c@R.ORG random type 18 type 17 cleared",
    ),
    (
        "ank +requires_preauth -maxlife 1d2h -nokey -allow_tix -expire never +allow_tix x",
        "add x@R.ORG expire 0 maxlife 93600 set 128 set 64 clear 64",
    ),
    ("addprinc -nokey -e aes128-sha2 c", "add c@R.ORG"),
    ("addprinc c", "1"),
    ("addprinc -nokey -randkey c", "1"),
    ("addprinc -pw x -randkey c", "1"),
    ("addprinc -pw x -nokey c", "1"),
    ("addprinc -pw x -pw x c", "1"),
    ("addprinc -nokey -e aes256-cts -e aes256-cts c", "1"),
    ("addprinc -nokey -policy p -clearpolicy c", "1"),
    ("addprinc -nokey -keepold c", "1"),
    ("addprinc -pw", "1"),
    ("addprinc -nokey -e des a@X", "2 2"),
    ("addprinc -nokey -e des -maxlife x c", "13 enctypes"),
    ("addprinc -nokey -policy - c", "13 policy"),
    (
        "modprinc -pwexpire 2000-02-29T12:30:45Z -maxrenewlife 07 bob",
        "modify bob@R.ORG pwexpire 951827445 maxrenewlife 7",
    ),
    (
        "modify_principal -policy std -needchange bob",
        "modify bob@R.ORG std clear 512",
    ),
    ("modprinc -nokey c", "1"),
    ("modprinc -maxlife 1 -maxlife 1 c", "1"),
    ("modprinc -maxlife x bob", "13 maxlife"),
    ("modprinc -maxlife x a@", "2 2"),
    (
        "cpw -pw t4cret alice",
        "change alice@R.ORG password t4cret type 18 type 17",
    ),
    (
        "change_password -randkey -keepold -e aes128-sha1 alice",
        "change alice@R.ORG random type 17 keepold",
    ),
    (
        "cpw -pw \"\" alice",
        "change alice@R.ORG password  type 18 type 17",
    ),
    ("cpw alice", "1"),
    ("cpw -nokey alice", "1"),
    ("cpw -pw x -randkey alice", "1"),
    ("cpw +needchange -pw x alice", "1"),
    ("renprinc -force a b", "rename a@R.ORG b@R.ORG"),
    ("rename_principal a", "1"),
    ("renprinc a b c", "1"),
    ("renprinc a@X b@", "2 2"),
    ("renprinc a b@", "2 2"),
    ("delprinc -force c", "delete c@R.ORG"),
    ("delete_principal -f c", "1"),
    ("delprinc", "1"),
];

const OTHERS: [(&str, &str); 39] = [
    ("getprinc -- -x", "show -x@R.ORG"),
    ("get_principal \"q\"\"t\"", "show q\"t@R.ORG"),
    ("getprinc -x", "1"),
    ("getprinc a b", "1"),
    ("listprincs", "list"),
    ("list_principals a?*", "list a?*@R.ORG"),
    ("get_principals *@X", "list *@X"),
    ("getprincs -- -*", "list -*@R.ORG"),
    ("listprincs \"\"", "list @R.ORG"),
    ("listprincs [ab]", "13 glob"),
    ("listprincs a b", "1"),
    ("purgekeys bob", "purge bob@R.ORG"),
    (
        "purgekeys -keepkvno 0065535 bob",
        "purge bob@R.ORG keep 65535",
    ),
    ("purgekeys -keepkvno 0 bob", "13 keepkvno"),
    ("purgekeys -keepkvno 65536 bob", "13 keepkvno"),
    ("setstr bob k -5", "set bob@R.ORG k -5"),
    ("setstr bob age \"\"", "set bob@R.ORG age "),
    ("setstr bob a=b \"\t\"", "13 key"),
    ("setstr bob k \"\t\"", "13 value"),
    ("setstr bob@X a=b \"\t\"", "2 4"),
    ("setstr bob k", "1"),
    ("delstr bob size", "unset bob@R.ORG size"),
    ("delstr bob a=b", "13 key"),
    ("delstr bob", "1"),
    ("getstrs bob", "strings bob@R.ORG"),
    ("extract bob", "extract bob@R.ORG"),
    ("", "skipped"),
    (" \t ", "skipped"),
    ("# note", "skipped"),
    ("#\"", "skipped"),
    (" # note", "1"),
    ("frob", "1"),
    ("\"a", "1"),
    ("getprinc \"a\"b", "1"),
    ("getprinc a\u{1}", "1"),
    ("getprinc - c", "1"),
    ("getprinc a\\", "2 1"),
    ("\"getprinc\"\t x+", "show x+@R.ORG"),
    (" getprinc +x", "1"),
];

const POLICIES: [(&str, &str); 41] = [
    (
        "addpol -minlength 8 -minclasses 3 -history 2 std",
        "addpol std maxlife 0 minlife 0 minlength 8 minclasses 3 history 2",
    ),
    (
        "add_policy -minlife 1d slow",
        "addpol slow maxlife 0 minlife 86400 minlength 1 minclasses 1 history 1",
    ),
    ("addpol -minlength 256 std", "13 minlength"),
    ("addpol -minclasses 6 std", "13 minclasses"),
    ("addpol -history 17 std", "13 history"),
    ("addpol -history 0 -minlength 0 std", "13 history"),
    ("addpol -history 0 -", "1"),
    ("addpol -history 0 .", "13 history"),
    ("addpol .", "13 policy"),
    ("addpol -policy p std", "1"),
    ("addpol +needchange std", "1"),
    ("modpol -maxlife 2h std", "modpol std maxlife 7200"),
    ("modify_policy std", "modpol std"),
    ("delpol -force std", "delpol std"),
    ("delete_policy a@b", "13 policy"),
    ("getpol std", "getpol std"),
    ("get_policy", "1"),
    ("listpols", "listpols"),
    ("list_policies x", "1"),
    ("get_policies", "listpols"),
    ("getpols --", "listpols"),
    ("getprivs", "privs"),
    ("get_privs", "privs"),
    ("add_mkey", "addmaster"),
    ("add_mkey -e aes128-sha2", "addmaster type 19"),
    ("add_mkey -e aes128-sha2:normal", "13 enctypes"),
    ("add_mkey -e aes128-sha2,aes256-sha2", "13 enctypes"),
    (
        "use_mkey 3 1700003600",
        "usemaster version 3 from 1700003600",
    ),
    ("use_mkey 2", "usemaster version 2"),
    ("use_mkey 0", "13 mkvno"),
    ("use_mkey 65536 x", "13 mkvno"),
    ("use_mkey 1 never", "13 time"),
    ("use_mkey 1 0", "13 time"),
    ("use_mkey 1 1970-01-01T00:00:00Z", "13 time"),
    ("use_mkey", "1"),
    ("list_mkeys", "masters"),
    ("purge_mkeys -f", "purgemasters"),
    ("purge_mkeys -force", "1"),
    ("update_princ_encryption -f a*", "rekey a*@R.ORG"),
    ("update_princ_encryption", "rekey"),
    ("dump x", "1"),
];

fn is_told(alloc: Global, line: &str, expected: &str) -> Result<bool, MemoryOut> {
    let text = told(alloc, line.as_bytes())?;
    Ok(text.as_slice() == expected.as_bytes())
}

#[test]
fn principals(rt: HostRuntime) -> Result<(), Fail> {
    for (line, expected) in PRINCS {
        assert!(rt; is_told(rt.alloc(), line, expected)?, "{line}");
    }
    Ok(())
}

#[test]
fn names_and_strings(rt: HostRuntime) -> Result<(), Fail> {
    for (line, expected) in OTHERS {
        assert!(rt; is_told(rt.alloc(), line, expected)?, "{line}");
    }
    Ok(())
}

#[test]
fn policies_and_masters(rt: HostRuntime) -> Result<(), Fail> {
    for (line, expected) in POLICIES {
        assert!(rt; is_told(rt.alloc(), line, expected)?, "{line}");
    }
    assert!(rt; is_told(rt.alloc(), "stash", "stash")? && is_told(rt.alloc(), "dump", "dump")?);
    Ok(())
}

fn check_told(rt: &impl Abort, alloc: Global, line: &[u8], expected: &[u8]) -> Result<(), Fail> {
    let text = told(alloc, line)?;
    assert_eq!(rt; text.as_slice(), expected);
    Ok(())
}

// The longest line.
fn longest(alloc: Global) -> Result<Vec<u8>, Fail> {
    let mut long = Vec::new(alloc);
    for _ in 0..65536 {
        long.push(b'a')?;
    }
    Ok(long)
}

#[test]
fn long_lines(rt: HostRuntime) -> Result<(), Fail> {
    let mut long = longest(rt.alloc())?;
    check_told(&rt, rt.alloc(), &long, b"1")?;
    long.push(b'a')?;
    check_told(&rt, rt.alloc(), &long, b"27")
}

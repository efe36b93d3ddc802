//! What the words of a run ask for.

ghost use Rattle.std.specs.Prelude.{◌≡◌, ◌≤◌, [], Some, map, option_map, IfOk, IfSome, unwrap_or};
ghost use Rattle.std.specs.Str.{bytes_eq};
ghost use Rattle.kadm_options.specs.OptionValues.{word_given};
ghost use Rattle.kadm_options.specs.declared.options.OptionName.TheVariants as option;
ghost use Rattle.kadm_top.specs.Words.{AreSized, admin_by, admin_options, create_by, create_in, create_options};
ghost use Rattle.kadm_top.specs.Words.{destroy_by, destroy_options, etype_given, generate_by, is_line_word, keytab_by};
ghost use Rattle.kadm_top.specs.Words.{kind_named, line_by, line_refusal, load_by, log_in, no_more, options_alone};
ghost use Rattle.kadm_top.specs.Words.{report_by, report_in, size_given, spec_of, tell_by, words_behind, words_in};
ghost use Rattle.kadm_wire.specs.LineReadings.{words_answer};
ghost use Rattle.keytab_words.specs.Words.{AreValid};
ghost use Rattle.princ_name.specs.Realms.{IsRealm};

use crate::asking::LineWords;
use first_rows::CreateSpec;
use kadm_commands::Command;
use kadm_options::{
    Given, Opening, OptionName, Setting, ValueKind, are_single, find_word, first_bad, is_dashes,
    read_options, read_within,
};
use kadm_values::read_etype;
use kadm_wire::parse_words;
use kdb_base::{Blob, Etype, Field, MemoryOut, Refusal};
use keytab_words::{KeytabWords, read_ktadd, read_ktremove};
use made_scripts::{Script, read_script};
use plain_keys::Password;
use princ_name::{Realm, is_realm};
use std::alloc::Global;
use tab_reports::ReportKind;

/// What is told of a database with no change, whatever its format, and without its stash.
#[derive(Clone, Copy, Debug, PartialEq, Eq)]
pub enum Account {
    /// The whole database as text.
    Dump,
    /// The entries that its log holds, as lines.
    Log,
    /// A report of its rows, as a table.
    Report(ReportKind),
}

/// What the words of a run ask for. It does not print itself: what it would print is a password.
#[derive(Drop)]
pub enum Words {
    /// The lines of the input are answered over the database, whose log is to hold so many entries, 2 to
    /// 10000, where a number is said.
    Admin(Option<u32>),
    /// A database is made.
    Create(CreateSpec),
    /// The database is ended.
    Destroy,
    /// What a line of these words asks for is answered over the database, as a line of the input is.
    Line(LineWords),
    /// A keytab is read from the input, and written anew.
    Keytab(KeytabWords),
    /// The log is begun anew.
    Renew,
    /// The dump that the input is takes the place of all that the database has.
    Load,
    /// This is told of the database.
    Tell(Account),
    /// A script is made and run over a database of its own in memory, and told of.
    Generate(Script),
}

/// How many entries the log of a new database holds.
const LOG_SIZE: u32 = 1000;

static ADMIN_OPTIONS: [Opening; 1] = [Opening::Value(Setting {
    option: OptionName::UlogSize,
    kind: ValueKind::Number(2, 10_000),
    field: Field::UlogSize,
})];

static CREATE_OPTIONS: [Opening; 3] = [
    Opening::Value(Setting {
        option: OptionName::MasterPassword,
        kind: ValueKind::Word,
        field: Field::Value,
    }),
    Opening::Value(Setting {
        option: OptionName::Enctypes,
        kind: ValueKind::OneEtype,
        field: Field::Enctypes,
    }),
    Opening::Value(Setting {
        option: OptionName::UlogSize,
        kind: ValueKind::Number(2, 10_000),
        field: Field::UlogSize,
    }),
];

static DESTROY_OPTIONS: [Opening; 1] = [Opening::Alone(OptionName::ShortForce)];

#[tactic(auto, unfolding(crate::specs::Words::admin_options))]
fn admin_options() -> &'static [Opening; 1]
    ensures { result.now ≡ admin_options }
{
    &ADMIN_OPTIONS
}

#[tactic(auto, unfolding(crate::specs::Words::create_options))]
fn create_options() -> &'static [Opening; 3]
    ensures { result.now ≡ create_options }
{
    &CREATE_OPTIONS
}

#[tactic(auto, unfolding(crate::specs::Words::destroy_options))]
fn destroy_options() -> &'static [Opening; 1]
    ensures { result.now ≡ destroy_options }
{
    &DESTROY_OPTIONS
}

// The words are text by text.
pub(crate) fn is_word(word: &[u8], text: &[u8]) -> bool
    ensures { result ≡ bytes_eq word.now text.now }
{
    word == text
}

// Whether no word is left, but for the one that ends the options.
#[tactic(auto, unfolding(crate::specs::Words::no_more))]
fn no_more(words: &[Blob]) -> bool
    ensures { result ≡ no_more words.now }
{
    match words {
        [] => true,
        [word] => is_dashes(word.as_slice()),
        _ => false,
    }
}

// The options of the words, where no other word stands and each option stands at most once.
#[tactic(auto, unfolding(crate::specs::Words::options_alone))]
fn read_alone(
    alloc: Global,
    known: &[Opening],
    words: &[Blob],
) -> Result<Option<Vec<Given>>, MemoryOut>
    ensures { IfOk result (λ found. option_map (λ options. options.items) found ≡ options_alone known.now words.now) }
{
    match read_options(alloc, known, false, words)? {
        Some(found) => {
            if no_more(&words[found.count..]) && are_single(&found.options) {
                Ok(Some(found.options))
            } else {
                Ok(None)
            }
        }
        None => Ok(None),
    }
}

// The number of entries that the log is to hold, where one is said.
fn size_given(options: &[Given]) -> Option<u32>
    ensures value { result ≡ size_given options.now }
    ensures within { IfSome result (λ n. (2 ≤ n) × (n ≤ 10000)) }
{
    match find_word(OptionName::UlogSize, options) {
        Some(word) => read_within(2, 10_000, word),
        None => None,
    }
}

// The type of the master key.
fn etype_given(options: &[Given]) -> Etype
    ensures { result ≡ unwrap_or (etype_given options.now) Etype.Aes256 }
{
    match find_word(OptionName::Enctypes, options) {
        Some(word) => match read_etype(word) {
            Some(etype) => etype,
            None => Etype::Aes256,
        },
        None => Etype::Aes256,
    }
}

fn password_given(alloc: Global, options: &[Given]) -> Result<Option<Password>, MemoryOut>
    ensures { IfOk result (λ password. password ≡ word_given option.MasterPassword options.now) }
{
    match find_word(OptionName::MasterPassword, options) {
        Some(word) => {
            let password = Password::from_bytes(alloc, word)?;
            Ok(Some(password))
        }
        None => Ok(None),
    }
}

// How many entries the log of a new database is to hold.
fn size_made(options: &[Given]) -> u32
    ensures value { result ≡ unwrap_or (size_given options.now) 1000 }
    ensures least { 2 ≤ result }
    ensures most { result ≤ 10000 }
{
    match size_given(options) {
        Some(size) => size,
        None => LOG_SIZE,
    }
}

fn spec_of(alloc: Global, realm: &[u8], options: &[Given]) -> Result<CreateSpec, MemoryOut>
    requires { IsRealm realm.now }
    ensures { IfOk result (λ spec. spec ≡ spec_of realm.now options.now) }
{
    let realm = Realm::from_bytes(alloc, realm)?;
    let password = password_given(alloc, options)?;
    Ok(CreateSpec::new(realm, password, etype_given(options), size_made(options)))
}

fn admin_by(alloc: Global, options: &[Given]) -> Result<Result<Words, Refusal>, MemoryOut>
    ensures value { IfOk result (λ found. found ≡ admin_by (Some options.now)) }
    ensures sized { IfOk result AreSized }
{
    match first_bad(alloc, options)? {
        Some(field) => Ok(Err(Refusal::BadValue { field })),
        None => Ok(Ok(Words::Admin(size_given(options)))),
    }
}

fn create_by(
    alloc: Global,
    realm: &[u8],
    options: &[Given],
) -> Result<Result<Words, Refusal>, MemoryOut>
    ensures value { IfOk result (λ found. found ≡ create_by realm.now (Some options.now)) }
    ensures sized { IfOk result AreSized }
{
    if !is_realm(realm) {
        return Ok(Err(Refusal::BadValue {
            field: Field::Realm,
        }));
    }
    match first_bad(alloc, options)? {
        Some(field) => Ok(Err(Refusal::BadValue { field })),
        None => {
            let spec = spec_of(alloc, realm, options)?;
            Ok(Ok(Words::Create(spec)))
        }
    }
}

fn read_admin(alloc: Global, words: &[Blob]) -> Result<Result<Words, Refusal>, MemoryOut>
    ensures value { IfOk result (λ found. found ≡ admin_by (options_alone admin_options words.now)) }
    ensures sized { IfOk result AreSized }
{
    match read_alone(alloc, admin_options(), words)? {
        Some(options) => admin_by(alloc, &options),
        None => Ok(Err(Refusal::BadLine)),
    }
}

// The realm is the word directly behind `create`, whatever it is.
fn read_create(alloc: Global, words: &[Blob]) -> Result<Result<Words, Refusal>, MemoryOut>
    ensures value { IfOk result (λ found. found ≡ create_in words.now) }
    ensures sized { IfOk result AreSized }
{
    match words {
        [] => Ok(Err(Refusal::BadLine)),
        [realm, rest @ ..] => match read_alone(alloc, create_options(), rest)? {
            Some(options) => create_by(alloc, realm.as_slice(), &options),
            None => Ok(Err(Refusal::BadLine)),
        },
    }
}

fn read_tell(
    alloc: Global,
    account: Account,
    words: &[Blob],
) -> Result<Result<Words, Refusal>, MemoryOut>
    ensures value { IfOk result (λ found. found ≡ tell_by account (options_alone [] words.now)) }
    ensures sized { IfOk result AreSized }
{
    match read_alone(alloc, &[], words)? {
        Some(_) => Ok(Ok(Words::Tell(account))),
        None => Ok(Err(Refusal::BadLine)),
    }
}

// What a report tells of, by the word that names it.
#[tactic(auto, unfolding(crate::specs::Words::kind_named))]
fn kind_named(word: &[u8]) -> Option<ReportKind>
    ensures { result ≡ kind_named word.now }
{
    if is_word(word, b"principals") {
        return Some(ReportKind::Principals);
    }
    if is_word(word, b"keys") {
        return Some(ReportKind::Keys);
    }
    if is_word(word, b"policies") {
        return Some(ReportKind::Policies);
    }
    if is_word(word, b"masters") {
        return Some(ReportKind::Masters);
    }
    None
}

fn report_by(kind: Option<ReportKind>) -> Result<Words, Refusal>
    ensures value { result ≡ report_by kind }
    ensures sized { AreSized result }
{
    match kind {
        Some(kind) => Ok(Words::Tell(Account::Report(kind))),
        None => Err(Refusal::BadLine),
    }
}

// The kind stands alone, or behind the word that ends the options, of which there are none.
#[tactic(auto, unfolding(crate::specs::Words::report_in))]
fn read_report(words: &[Blob]) -> Result<Words, Refusal>
    ensures value { result ≡ report_in words.now }
    ensures sized { AreSized result }
{
    match words {
        [kind] => report_by(kind_named(kind.as_slice())),
        [dashes, kind] => {
            if is_dashes(dashes.as_slice()) {
                report_by(kind_named(kind.as_slice()))
            } else {
                Err(Refusal::BadLine)
            }
        }
        _ => Err(Refusal::BadLine),
    }
}

fn read_load(alloc: Global, words: &[Blob]) -> Result<Result<Words, Refusal>, MemoryOut>
    ensures value { IfOk result (λ found. found ≡ load_by (options_alone [] words.now)) }
    ensures sized { IfOk result AreSized }
{
    match read_alone(alloc, &[], words)? {
        Some(_) => Ok(Ok(Words::Load)),
        None => Ok(Err(Refusal::BadLine)),
    }
}

fn read_destroy(alloc: Global, words: &[Blob]) -> Result<Result<Words, Refusal>, MemoryOut>
    ensures value { IfOk result (λ found. found ≡ destroy_by (options_alone destroy_options words.now)) }
    ensures sized { IfOk result AreSized }
{
    match read_alone(alloc, destroy_options(), words)? {
        Some(_) => Ok(Ok(Words::Destroy)),
        None => Ok(Err(Refusal::BadLine)),
    }
}

// Whether the word begins a line that may stand in place of the input.
#[tactic(auto, unfolding(crate::specs::Words::is_line_word))]
fn is_line_word(word: &[u8]) -> bool
    ensures { result ≡ is_line_word word.now }
{
    is_word(word, b"add_mkey")
        || is_word(word, b"use_mkey")
        || is_word(word, b"list_mkeys")
        || is_word(word, b"purge_mkeys")
        || is_word(word, b"stash")
        || is_word(word, b"update_princ_encryption")
}

// Why what was read of a line is no command, or nothing where it is one.
fn line_refusal(said: &Result<Option<Command>, Refusal>) -> Option<Refusal>
    ensures { result ≡ line_refusal said.now }
{
    match said {
        Ok(Some(_)) => None,
        Ok(None) => Some(Refusal::BadLine),
        Err(refusal) => Some(*refusal),
    }
}

// Why a line of these words is refused in no realm, or nothing where it is read there.
fn refusal_of(alloc: Global, words: &[Blob]) -> Result<Option<Refusal>, MemoryOut>
    ensures { IfOk result (λ refusal. refusal ≡ line_refusal (words_answer [] words.now)) }
{
    let said = parse_words(alloc, words, b"")?;
    Ok(line_refusal(&said))
}

// What the words of a line ask for.
fn read_line(alloc: Global, words: &[Blob]) -> Result<Result<Words, Refusal>, MemoryOut>
    ensures value { IfOk result (λ found. found ≡ line_by words.now (words_answer [] words.now)) }
    ensures sized { IfOk result AreSized }
{
    match refusal_of(alloc, words)? {
        Some(refusal) => Ok(Err(refusal)),
        None => {
            let words = LineWords::copied(alloc, words)?;
            Ok(Ok(Words::Line(words)))
        }
    }
}

fn keytab_by(found: Result<KeytabWords, Refusal>) -> Result<Words, Refusal>
    requires { AreValid found }
    ensures value { result ≡ keytab_by found }
    ensures sized { AreSized result }
{
    match found {
        Ok(words) => Ok(Words::Keytab(words)),
        Err(refusal) => Err(refusal),
    }
}

fn generate_by(found: Result<Script, Refusal>) -> Result<Words, Refusal>
    ensures value { result ≡ generate_by found }
    ensures sized { AreSized result }
{
    match found {
        Ok(script) => Ok(Words::Generate(script)),
        Err(refusal) => Err(refusal),
    }
}

// What the words behind `kproplog` ask for.
#[tactic(auto, unfolding(crate::specs::Words::log_in))]
fn read_log(alloc: Global, words: &[Blob]) -> Result<Result<Words, Refusal>, MemoryOut>
    ensures value { IfOk result (λ found. found ≡ log_in words.now) }
    ensures sized { IfOk result AreSized }
{
    match words {
        [] => read_tell(alloc, Account::Log, words),
        [word, rest @ ..] => {
            if !is_word(word.as_slice(), b"-R") {
                read_tell(alloc, Account::Log, words)
            } else if no_more(rest) {
                Ok(Ok(Words::Renew))
            } else {
                Ok(Err(Refusal::BadLine))
            }
        }
    }
}

// What the words behind the first ask for.
fn read_behind(
    alloc: Global,
    word: &[u8],
    words: &[Blob],
) -> Result<Result<Words, Refusal>, MemoryOut>
    ensures value { IfOk result (λ found. found ≡ words_behind word.now words.now) }
    ensures sized { IfOk result AreSized }
{
    if is_word(word, b"admin") {
        return read_admin(alloc, words);
    }
    if is_word(word, b"create") {
        return read_create(alloc, words);
    }
    if is_word(word, b"dump") {
        return read_tell(alloc, Account::Dump, words);
    }
    if is_word(word, b"load") {
        return read_load(alloc, words);
    }
    if is_word(word, b"kproplog") {
        return read_log(alloc, words);
    }
    if is_word(word, b"report") {
        return Ok(read_report(words));
    }
    if is_word(word, b"ktadd") {
        let found = read_ktadd(alloc, words)?;
        return Ok(keytab_by(found));
    }
    if is_word(word, b"ktremove") {
        let found = read_ktremove(alloc, words)?;
        return Ok(keytab_by(found));
    }
    if is_word(word, b"generate") {
        return Ok(generate_by(read_script(words)));
    }
    if is_word(word, b"destroy") {
        return read_destroy(alloc, words);
    }
    Ok(Err(Refusal::BadLine))
}

#[tactic(auto, unfolding(crate::specs::Words::words_in))]
fn read_copied(alloc: Global, words: &[Blob]) -> Result<Result<Words, Refusal>, MemoryOut>
    ensures value { IfOk result (λ found. found ≡ words_in words.now) }
    ensures sized { IfOk result AreSized }
{
    match words {
        [] => Ok(Err(Refusal::BadLine)),
        [word, rest @ ..] => {
            if is_line_word(word.as_slice()) {
                read_line(alloc, words)
            } else {
                read_behind(alloc, word.as_slice(), rest)
            }
        }
    }
}

fn copy_words(alloc: Global, words: &[Vec<u8>]) -> Result<Vec<Blob>, MemoryOut>
    ensures { IfOk result (λ copies. copies.items ≡ map (λ word. word.items) words.now) }
{
    let mut copies = Vec::new(alloc);
    for word in words {
        copies.push(Blob::from_bytes(alloc, word.as_slice())?)?;
    }
    Ok(copies)
}

/// What the words ask for: `admin [-ulogsize N]`, `create REALM [-P PASS] [-e ETYPE] [-ulogsize N]`,
/// `destroy [-f]`, `dump`, `load`, `kproplog` or `kproplog -R`, each with `--` as its last word or without,
/// `report KIND` or `generate SEED COUNT`, with `--` before these words or without, `ktadd -norandkey NAME`,
/// `ktadd [-e LIST] NAME`,
/// `ktremove NAME` with `all`, `old` or a version, or a line of master keys. The realm is the word behind `create`,
/// whatever it is. Only want of memory can refuse the reading itself.
///
/// # Errors
///
/// Inside, `BadLine` where the words are not of this grammar, then `BadName` of the name of `ktremove`, and else
/// `BadValue` of the first bad value: of the realm, and then of the options in their order.
pub fn read_words(alloc: Global, words: &[Vec<u8>]) -> Result<Result<Words, Refusal>, MemoryOut>
    ensures value { IfOk result (λ found. found ≡ words_in (map (λ word. word.items) words.now)) }
    ensures sized { IfOk result AreSized }
{
    let copies = copy_words(alloc, words)?;
    read_copied(alloc, &copies)
}

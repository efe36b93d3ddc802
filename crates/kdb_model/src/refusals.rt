//! Why a command is refused: each cause by itself, and the first of them in their order.

ghost use Rattle.std.specs.Prelude.{◌≡◌, ◌+◌, ◌≤◌, ◌&&◌, ℕ, IfOk, Option, length, option_map};
ghost use Rattle.kadm_commands.specs.Commands.{IsCommand};
ghost use Rattle.kdb_base.specs.declared.outcomes.Refusal.{Refusal};
ghost use Rattle.kdb_model.specs.Access.{is_own};
ghost use Rattle.kdb_model.specs.Asking.{any_name, call_in, state_in, touches};
ghost use Rattle.kdb_model.specs.Refusals.{breaks_lock, bytes_put, duplicate, fails_by, first, has_last_kvno};
ghost use Rattle.kdb_model.specs.Refusals.{is_locked, is_missing, is_protected, keys_full, lacks_policy};
ghost use Rattle.kdb_model.specs.Refusals.{len_under, locked_down, names_missing, needed_name, new_name};
ghost use Rattle.kdb_model.specs.Refusals.{no_active_master, pass_reused, password, password_numbers};
ghost use Rattle.kdb_model.specs.Refusals.{policy_in_use, protected, puts_many_keys, puts_missing, rows_full};
ghost use Rattle.kdb_model.specs.Refusals.{soon_after, strings_full, target as needed_target, too_large};
ghost use Rattle.kdb_model.specs.Refusals.{too_many_masters, too_soon, unknown_master, unknown_policy};
ghost use Rattle.kdb_model.specs.Refusals.{unknown_principal, unknown_string, unlocks, when};
ghost use Rattle.plain_keys.specs.Keys.{bytes_to_make, is_password, is_reused, made_keys};
ghost use Rattle.kdb_plain.specs.Lengths.{in_64_bits};
ghost use Rattle.kdb_plain.specs.declared.states.State.{State};
ghost use Rattle.policy_rules.specs.Passwords.{has_few_classes, is_short};
ghost use Rattle.princ_name.specs.Names.{NameParts, printed};

use crate::asked::{Asked, secs_of};
use crate::heads::{LOCKDOWN_KEYS, NEEDCHANGE, has_bit};
use crate::masters::{last_version, used_activations};
use crate::named::{find_some, needed_name, needed_policy, new_keys};
use crate::records::{added_numbers, is_password, numbers_for};
use kadm_commands::{ChangeKeys, Command, PolicyChoice};
use kdb_base::limits::{MAX_KEYS, MAX_MASTERS, MAX_ROW_LEN, MAX_ROWS, MAX_STRINGS};
use kdb_base::{Blob, Masters, MemoryOut, PlainKey, Refusal};
use kdb_plain::{
    PlainOp, PlainPrinc, PolicyList, chain_len, has_policy, has_room_for, has_string, history_key,
    is_history_name, is_master_name, master_of, row_len, users_of,
};
use key_activation::active_at;
use plain_keys::{NewKeys, Password, is_reused, made_keys, newest_kvno};
use policy_rules::{Numbers, has_few_classes, is_short};
use std::alloc::Global;

fn when(holds: bool, refusal: Refusal) -> Option<Refusal>
    ensures { result ≡ when holds refusal }
{
    if holds { Some(refusal) } else { None }
}

/// The first cause that holds.
#[tactic(auto, unfolding(crate::specs::Refusals::first))]
pub(crate) fn first(causes: &[Option<Refusal>]) -> Option<Refusal>
    ensures { result ≡ first causes.now }
{
    for cause in causes {
        if cause.is_some() {
            return *cause;
        }
    }
    None
}

// ---- names

pub(crate) fn unknown_master(asked: &Asked) -> Option<Refusal>
    ensures { result ≡ unknown_master (state_in asked.now) asked.now.command.now }
{
    match asked.command {
        Command::UseMaster(c) => when(
            master_of(&asked.state.masters, c.version).is_none(),
            Refusal::UnknownMaster {
                version: u32::from(c.version),
            },
        ),
        _ => None,
    }
}

/// Whether the text is the name of a principal with the database's own keys.
#[tactic(auto, unfolding(crate::specs::Refusals::is_protected))]
fn is_own_key(realm: &[u8], text: &Option<Blob>) -> bool
    ensures { (name : Option NameParts) → text.now ≡ option_map printed name
        → result ≡ any_name (is_protected realm.now) name }
{
    match text {
        Some(text) => {
            is_master_name(realm, text.as_slice()) || is_history_name(realm, text.as_slice())
        }
        None => false,
    }
}

fn touches(command: &Command) -> bool
    ensures { result ≡ touches command.now }
{
    !matches!(command, Command::GetPrinc(_) | Command::GetStrings(_))
}

pub(crate) fn protected(
    asked: &Asked,
    needed: &Option<Blob>,
    fresh: &Option<Blob>,
) -> Option<Refusal>
    requires needed { needed.now ≡ option_map printed (needed_name asked.now.command.now) }
    requires fresh { fresh.now ≡ option_map printed (new_name asked.now.command.now) }
    ensures { result ≡ protected (state_in asked.now) asked.now.command.now }
{
    let realm = asked.state.realm.as_slice();
    let own = is_own_key(realm, needed) || is_own_key(realm, fresh);
    when(touches(asked.command) && own, Refusal::Protected)
}

pub(crate) fn duplicate(asked: &Asked, fresh: &Option<Blob>) -> Option<Refusal>
    requires { fresh.now ≡ option_map printed (new_name asked.now.command.now) }
    ensures { result ≡ duplicate (state_in asked.now) asked.now.command.now }
{
    match asked.command {
        Command::AddPolicy(policy) => when(
            has_policy(&asked.state.policies, policy.name()),
            Refusal::Duplicate,
        ),
        _ => when(
            find_some(&asked.state.princs, fresh).is_some(),
            Refusal::Duplicate,
        ),
    }
}

pub(crate) fn unknown_principal(asked: &Asked, target: Option<&PlainPrinc>) -> Option<Refusal>
    requires { option_map (λ q. q.now) target ≡ needed_target (state_in asked.now) asked.now.command.now }
    ensures { result ≡ unknown_principal (state_in asked.now) asked.now.command.now }
{
    when(
        needed_name(asked.command).is_some() && target.is_none(),
        Refusal::UnknownPrincipal,
    )
}

// ---- lockdown and policies

fn is_locked(target: Option<&PlainPrinc>) -> bool
    ensures { result ≡ is_locked (option_map (λ q. q.now) target.entry) }
{
    match target {
        Some(princ) => has_bit(LOCKDOWN_KEYS, princ.attributes),
        None => false,
    }
}

fn unlocks(change: &Option<PlainOp>) -> bool
    ensures { result ≡ unlocks change.now }
{
    match change {
        Some(PlainOp::PutPrinc(princ)) => !has_bit(LOCKDOWN_KEYS, princ.attributes),
        _ => false,
    }
}

fn breaks_lock(change: &Option<PlainOp>, command: &Command) -> bool
    ensures { result ≡ breaks_lock change.now command.now }
{
    match command {
        Command::ModPrinc(_) => unlocks(change),
        Command::ChangeKeys(c) => is_password(&c.keys),
        Command::RenPrinc(_) | Command::DelPrinc(_) | Command::Extract(_) => true,
        _ => false,
    }
}

pub(crate) fn locked_down(
    asked: &Asked,
    target: Option<&PlainPrinc>,
    change: &Option<PlainOp>,
) -> Option<Refusal>
    requires { option_map (λ q. q.now) target ≡ needed_target (state_in asked.now) asked.now.command.now }
    ensures { result ≡ locked_down (state_in asked.now) (call_in asked.now) change.now }
{
    let breaks = is_locked(target) && breaks_lock(change, asked.command);
    when(asked.acl.is_some() && breaks, Refusal::LockedDown)
}

fn is_missing(policies: &PolicyList, name: &Option<Blob>) -> bool
    ensures { (s : State) → s.policies ≡ policies.now → result ≡ is_missing s name.now }
{
    match name {
        Some(name) => !has_policy(policies, name.as_slice()),
        None => false,
    }
}

fn names_missing(policies: &PolicyList, choice: &Option<PolicyChoice>) -> bool
    ensures { (s : State) → s.policies ≡ policies.now → result ≡ names_missing s choice.now }
{
    match choice {
        Some(PolicyChoice::Named(name)) => !has_policy(policies, name.as_slice()),
        _ => false,
    }
}

fn puts_missing(policies: &PolicyList, change: &Option<PlainOp>) -> bool
    ensures { (s : State) → s.policies ≡ policies.now → result ≡ puts_missing s change.now }
{
    match change {
        Some(PlainOp::PutPrinc(princ)) => is_missing(policies, &princ.policy),
        _ => false,
    }
}

fn lacks_policy(asked: &Asked, change: &Option<PlainOp>) -> bool
    ensures { result ≡ lacks_policy (state_in asked.now) change.now asked.now.command.now }
{
    let policies = &asked.state.policies;
    match asked.command {
        Command::AddPrinc(c) => {
            names_missing(policies, &c.policy) || puts_missing(policies, change)
        }
        Command::ModPrinc(c) => {
            names_missing(policies, &c.policy) || puts_missing(policies, change)
        }
        Command::ModPolicy(c) => !has_policy(policies, c.name.as_slice()),
        Command::DelPolicy(name) => !has_policy(policies, name.as_slice()),
        Command::GetPolicy(name) => !has_policy(policies, name.as_slice()),
        _ => false,
    }
}

pub(crate) fn unknown_policy(asked: &Asked, change: &Option<PlainOp>) -> Option<Refusal>
    ensures { result ≡ unknown_policy (state_in asked.now) change.now asked.now.command.now }
{
    when(lacks_policy(asked, change), Refusal::UnknownPolicy)
}

pub(crate) fn policy_in_use(asked: &Asked) -> Option<Refusal>
    ensures { result ≡ policy_in_use (state_in asked.now) asked.now.command.now }
{
    match asked.command {
        Command::DelPolicy(name) => {
            let count = users_of(&asked.state.princs, name.as_slice()) as u32;
            when(count > 0, Refusal::PolicyInUse { count })
        }
        _ => None,
    }
}

// ---- passwords

/// The password that a command sets.
pub(crate) fn password(command: &Command) -> Option<&Password>
    ensures { option_map (λ text. text.now) result ≡ password command.now }
{
    match new_keys(command) {
        Some(NewKeys::Password(password, _)) => Some(password),
        _ => None,
    }
}

/// What the password of a command has to meet.
pub(crate) fn password_numbers(
    alloc: Global,
    asked: &Asked,
    target: Option<&PlainPrinc>,
) -> Result<Numbers, MemoryOut>
    requires { option_map (λ q. q.now) target ≡ needed_target (state_in asked.now) asked.now.command.now }
    ensures { IfOk result (λ n. n ≡ password_numbers (state_in asked.now) (call_in asked.now) asked.now.command.now) }
{
    match asked.command {
        Command::AddPrinc(c) => added_numbers(alloc, asked, c),
        _ => match target {
            Some(princ) => Ok(numbers_for(&princ.policy, &asked.state.policies)),
            None => Ok(numbers_for(&None, &asked.state.policies)),
        },
    }
}

/// The password is shorter than these numbers ask.
pub fn too_short(numbers: &Numbers, password: Option<&Password>) -> Option<Refusal>
    ensures { result
        ≡ when (fails_by is_short numbers.now (option_map (λ text. text.now) password.entry)) Refusal.PassTooShort }
{
    match password {
        Some(text) => when(is_short(numbers, text.as_slice()), Refusal::PassTooShort),
        None => None,
    }
}

/// The password has bytes of fewer classes than these numbers ask.
pub fn few_classes(numbers: &Numbers, password: Option<&Password>) -> Option<Refusal>
    ensures { result ≡ when (fails_by has_few_classes numbers.now (option_map (λ text. text.now) password.entry))
        Refusal.PassClasses }
{
    match password {
        Some(text) => when(
            has_few_classes(numbers, text.as_slice()),
            Refusal::PassClasses,
        ),
        None => None,
    }
}

/// Whether a password's key was in use before.
fn reuses(
    alloc: Global,
    asked: &Asked,
    c: &ChangeKeys,
    princ: &PlainPrinc,
) -> Result<bool, MemoryOut>
    requires { bytes_to_make c.now.keys ≤ length asked.now.random.now }
    ensures { IfOk result (λ b. b ≡ (is_password c.now.keys
        && is_reused (made_keys asked.now.random.now c.now.name c.now.keys) princ.now.keys princ.now.old)) }
{
    if !is_password(&c.keys) {
        return Ok(false);
    }
    let fresh = made_keys(alloc, asked.random, &c.name, &c.keys)?;
    Ok(is_reused(
        fresh.as_slice(),
        princ.keys.as_slice(),
        princ.old.as_slice(),
    ))
}

pub(crate) fn pass_reused(
    alloc: Global,
    asked: &Asked,
    target: Option<&PlainPrinc>,
) -> Result<Option<Refusal>, MemoryOut>
    requires target { option_map (λ q. q.now) target ≡ needed_target (state_in asked.now) asked.now.command.now }
    requires command { IsCommand (state_in asked.now).realm asked.now.command.now }
    requires random { length asked.now.random.now ≡ 2048 }
    ensures { IfOk result (λ r. r ≡ pass_reused (state_in asked.now) (call_in asked.now)) }
{
    match asked.command {
        Command::ChangeKeys(c) => match target {
            Some(princ) => {
                let reused = reuses(alloc, asked, c, princ)?;
                Ok(when(reused, Refusal::PassReused))
            }
            None => Ok(None),
        },
        _ => Ok(None),
    }
}

/// Why the keys that were set at `changed` may not be changed yet.
fn soon_after(asked: &Asked, princ: &PlainPrinc, changed: u32) -> Option<Refusal>
    ensures { result ≡ soon_after (state_in asked.now) (call_in asked.now) princ.now changed }
{
    let numbers = numbers_for(&princ.policy, &asked.state.policies);
    let until = u64::from(changed) + u64::from(numbers.min_life());
    let soon = u64::from(secs_of(asked)) < until;
    when(
        !has_bit(NEEDCHANGE, princ.attributes) && soon,
        Refusal::PassTooSoon {
            until: changed.saturating_add(numbers.min_life()),
        },
    )
}

/// `own` says that the command is on the client's own name.
pub(crate) fn too_soon(asked: &Asked, own: bool, target: Option<&PlainPrinc>) -> Option<Refusal>
    requires own { own ≡ is_own asked.now.client.now asked.now.command.now }
    requires target { option_map (λ q. q.now) target ≡ needed_target (state_in asked.now) asked.now.command.now }
    ensures { result ≡ too_soon (state_in asked.now) (call_in asked.now) }
{
    if asked.acl.is_none() || !own {
        return None;
    }
    match asked.command {
        Command::ChangeKeys(_) => match target {
            Some(princ) => match princ.pw_changed {
                Some(changed) => soon_after(asked, princ, changed),
                None => None,
            },
            None => None,
        },
        _ => None,
    }
}

// ---- room

fn has_last_kvno(command: &Command, target: Option<&PlainPrinc>) -> bool
    ensures { result ≡ has_last_kvno command.now (option_map (λ q. q.now) target.entry) }
{
    match command {
        Command::ChangeKeys(_) => match target {
            Some(princ) => newest_kvno(princ.keys.as_slice()) == u16::MAX,
            None => false,
        },
        _ => false,
    }
}

fn puts_many_keys(change: &Option<PlainOp>) -> bool
    ensures { result ≡ puts_many_keys change.now }
{
    match change {
        Some(PlainOp::PutPrinc(princ)) => princ.keys.as_slice().len() > MAX_KEYS,
        _ => false,
    }
}

pub(crate) fn keys_full(
    asked: &Asked,
    target: Option<&PlainPrinc>,
    change: &Option<PlainOp>,
) -> Option<Refusal>
    requires { option_map (λ q. q.now) target ≡ needed_target (state_in asked.now) asked.now.command.now }
    ensures { result ≡ keys_full (state_in asked.now) change.now asked.now.command.now }
{
    let many = new_keys(asked.command).is_some() && puts_many_keys(change);
    when(
        has_last_kvno(asked.command, target) || many,
        Refusal::KeysFull,
    )
}

pub(crate) fn unknown_string(asked: &Asked, target: Option<&PlainPrinc>) -> Option<Refusal>
    requires { option_map (λ q. q.now) target ≡ needed_target (state_in asked.now) asked.now.command.now }
    ensures { result ≡ unknown_string (state_in asked.now) asked.now.command.now }
{
    match asked.command {
        Command::DelString(c) => match target {
            Some(princ) => when(
                !has_string(&princ.strings, c.key.as_slice()),
                Refusal::UnknownString,
            ),
            None => None,
        },
        _ => None,
    }
}

pub(crate) fn strings_full(asked: &Asked, target: Option<&PlainPrinc>) -> Option<Refusal>
    requires { option_map (λ q. q.now) target ≡ needed_target (state_in asked.now) asked.now.command.now }
    ensures { result ≡ strings_full (state_in asked.now) asked.now.command.now }
{
    match asked.command {
        Command::SetString(c) => match target {
            Some(princ) => when(
                !has_room_for(&princ.strings, c.key.as_slice()),
                Refusal::StringsFull {
                    limit: MAX_STRINGS as u32,
                },
            ),
            None => None,
        },
        _ => None,
    }
}

pub(crate) fn too_many_masters(asked: &Asked) -> Option<Refusal>
    ensures { result ≡ too_many_masters (state_in asked.now) asked.now.command.now }
{
    match asked.command {
        Command::AddMaster(_) => {
            let masters = &asked.state.masters;
            let full = masters.as_slice().len() >= MAX_MASTERS;
            when(
                full || last_version(masters) == u16::MAX,
                Refusal::TooManyMasters {
                    limit: MAX_MASTERS as u32,
                },
            )
        }
        _ => None,
    }
}

pub(crate) fn no_active_master(alloc: Global, asked: &Asked) -> Result<Option<Refusal>, MemoryOut>
    requires { IsCommand (state_in asked.now).realm asked.now.command.now }
    ensures { IfOk result (λ r. r ≡ no_active_master (state_in asked.now) (call_in asked.now) asked.now.command.now) }
{
    match asked.command {
        Command::UseMaster(c) => {
            let list = used_activations(alloc, asked, c)?;
            let active = active_at(&list, secs_of(asked));
            Ok(when(active.is_none(), Refusal::NoActiveMaster))
        }
        _ => Ok(None),
    }
}

pub(crate) fn rows_full(asked: &Asked) -> Option<Refusal>
    ensures { result ≡ rows_full (state_in asked.now) asked.now.command.now }
{
    let rows = asked.state.princs.as_slice().len() + asked.state.policies.as_slice().len();
    let adds = matches!(asked.command, Command::AddPrinc(_) | Command::AddPolicy(_));
    when(
        adds && rows >= MAX_ROWS,
        Refusal::RowsFull {
            limit: MAX_ROWS as u32,
        },
    )
}

// ---- the length of a row

/// The bytes of a principal's row, 0 where a key that it is kept under is not there.
#[tactic(auto, unfolding(crate::specs::Refusals::len_under))]
fn len_under(masters: &Masters, history: Option<PlainKey>, princ: &PlainPrinc) -> u64
    ensures { result ≡ in_64_bits (len_under masters.now history princ.now) }
{
    match master_of(masters, princ.mkvno) {
        Some(master) => match history {
            Some(history) => row_len(master.etype(), history.etype(), princ),
            None => 0,
        },
        None => 0,
    }
}

fn add(a: u64, b: u64) -> u64
    ensures { (m n : ℕ) → a ≡ in_64_bits m → b ≡ in_64_bits n → result ≡ in_64_bits (m + n) }
{
    a.saturating_add(b)
}

/// The bytes of the row that a change puts.
#[tactic(auto, unfolding(crate::specs::Refusals::bytes_put))]
fn bytes_put(alloc: Global, asked: &Asked, change: &Option<PlainOp>) -> Result<u64, MemoryOut>
    ensures { IfOk result (λ n. n ≡ in_64_bits (bytes_put (state_in asked.now) change.now)) }
{
    let history = history_key(alloc, asked.state)?;
    match change {
        Some(PlainOp::PutPrinc(princ)) => Ok(len_under(&asked.state.masters, history, princ)),
        Some(PlainOp::Rename(_, princ)) => Ok(len_under(&asked.state.masters, history, princ)),
        Some(PlainOp::PutMasters(princ, masters, activations)) => Ok(add(
            len_under(masters, history, princ),
            chain_len(masters, activations),
        )),
        _ => Ok(0),
    }
}

pub(crate) fn too_large(
    alloc: Global,
    asked: &Asked,
    change: &Option<PlainOp>,
) -> Result<Option<Refusal>, MemoryOut>
    ensures { IfOk result (λ r. r ≡ too_large (state_in asked.now) change.now) }
{
    let size = bytes_put(alloc, asked, change)?;
    Ok(when(size > MAX_ROW_LEN as u64, Refusal::RecordTooLarge { size }))
}

//! `addprinc`.

ghost use Rattle.std.specs.Prelude.{◌≡◌, IfOk, None, Some, is_some, length, option_map};
ghost use Rattle.command_plans.specs.Given.{IsJudged};
ghost use Rattle.command_plans.specs.Targets.{IsPut};
ghost use Rattle.kadm_commands.specs.Commands.{IsCommand};
ghost use Rattle.kadm_commands.specs.declared.commands.AddPrinc.{AddPrinc as Added};
ghost use Rattle.kadm_commands.specs.declared.commands.Command.TheVariants as command;
ghost use Rattle.kdb_model.specs.Fields.{blank_head, keyed_by};
ghost use Rattle.kdb_model.specs.Records.{default_given, line_policy, numbers_for};
ghost use Rattle.kdb_model.specs.Refusals.{first};
ghost use Rattle.plain_keys.specs.declared.new_keys.NewKeys.{NewKeys as KeysAsked};
ghost use Rattle.princ_name.specs.Names.{printed};
ghost use Rattle.princ_name.specs.Realms.{IsRealm};
ghost use Rattle.princ_plans.specs.Adding.{IsHead, add_causes, numbers_given, password_given, policy_given};
ghost use Rattle.princ_plans.specs.NewRecords.{IsNewRecord};
ghost use Rattle.princ_plans.specs.Ready.{ready_keys};

use crate::active::active_master;
use crate::limits::limits_given;
use crate::new_keys::{new_items, wrapped_new};
use crate::policies::missing_policy;
use crate::puts::with_lives;
use command_plans::Planned;
use command_plans::causes::{denial, first, found, fullness, protection, when};
use command_plans::given::Given;
use command_plans::targets::{marked_by, put};
use kadm_commands::AddPrinc;
use kdb_base::{Blob, MemoryOut, Refusal};
use kdb_model::heads::{blank_head, chosen, forced, keyed, limited, with_options};
use kdb_model::refusals::{few_classes, too_short};
use plain_keys::{NewKeys, Password, PlainKeys};
use policy_rules::Numbers;
use princ_name::print_name;
use princ_record::Princ;
use princ_rows::Rows;
use row_keys::{has_policy_row, policy_row};
use std::alloc::Global;

/// The policy of a database that is given where a line says nothing of policies.
fn default_policy(alloc: Global, rows: &Rows) -> Result<Option<Blob>, MemoryOut>
    ensures { IfOk result (λ p. p ≡ default_given rows.now.policies) }
{
    if has_policy_row(rows, b"default") {
        let name = Blob::from_bytes(alloc, b"default")?;
        Ok(Some(name))
    } else {
        Ok(None)
    }
}

/// The policy of the line.
fn line_policy(alloc: Global, rows: &Rows, c: &AddPrinc) -> Result<Option<Blob>, MemoryOut>
    ensures { IfOk result (λ p. p ≡ line_policy c.now rows.now.policies) }
{
    let standing = default_policy(alloc, rows)?;
    chosen(alloc, &c.policy, standing)
}

/// The policy behind restrictions.
fn policy_given(alloc: Global, given: &Given, c: &AddPrinc) -> Result<Option<Blob>, MemoryOut>
    ensures { IfOk result (λ p. p ≡ policy_given given.now c.now) }
{
    let policy = line_policy(alloc, given.rows, c)?;
    forced(alloc, limits_given(given, b'a', &c.name), policy)
}

/// What a policy asks; without one, or where it is not there, the defaults.
fn numbers_for(rows: &Rows, policy: &Option<Blob>) -> Numbers
    ensures { result ≡ numbers_for policy.now rows.now.policies }
{
    match policy {
        Some(name) => match policy_row(rows, name.as_slice()) {
            Some(policy) => policy.numbers(),
            None => Numbers::without_policy(),
        },
        None => Numbers::without_policy(),
    }
}

fn password_given(keys: &Option<NewKeys>) -> Option<&Password>
    ensures { (c : Added) → c.keys ≡ keys.now → option_map (λ text. text.now) result ≡ password_given c }
{
    match keys {
        Some(NewKeys::Password(password, _)) => Some(password),
        _ => None,
    }
}

/// Why the record is not put, before its length.
fn cause(given: &Given, c: &AddPrinc, text: &[u8], policy: &Option<Blob>) -> Option<Refusal>
    requires text { text.now ≡ printed c.now.name }
    requires policy { policy.now ≡ policy_given given.now c.now }
    ensures { result ≡ first (add_causes given.now c.now) }
{
    let numbers = numbers_for(given.rows, policy);
    let password = password_given(&c.keys);
    let causes = [
        denial(given, b'a', Some(&c.name)),
        protection(given, text),
        when(found(given, text).is_some(), Refusal::Duplicate),
        missing_policy(given.rows, &c.policy, policy),
        too_short(&numbers, password),
        few_classes(&numbers, password),
        fullness(given),
    ];
    first(&causes)
}

/// The fields before the options of the line.
fn keyed_head(
    alloc: Global,
    given: &Given,
    c: &AddPrinc,
    version: u16,
    life: u32,
) -> Result<Princ, MemoryOut>
    ensures { IfOk result (λ h. h ≡ keyed_by (option_map (λ (keys : KeysAsked). life) c.now.keys) given.now.moment.secs
        (blank_head (printed c.now.name) version (line_policy c.now given.now.rows.now.policies))) }
{
    let name = print_name(alloc, &c.name)?;
    let policy = line_policy(alloc, given.rows, c)?;
    let head = blank_head(alloc, name, version, policy);
    if c.keys.is_none() {
        return Ok(head);
    }
    Ok(keyed(head, life, given.moment.secs()))
}

/// The fields, under this version of the master key and with a greatest life of the keys.
#[tactic(auto, unfolding(kdb_model::specs::Fields::added_head))]
fn added_head(
    alloc: Global,
    given: &Given,
    c: &AddPrinc,
    version: u16,
    life: u32,
) -> Result<Princ, MemoryOut>
    requires { life ≡ (numbers_given given.now c.now).max_life }
    ensures { IfOk result (λ head. IsHead given.now c.now version head) }
{
    let head = keyed_head(alloc, given, c, version, life)?;
    let head = with_options(head, &c.options);
    let head = marked_by(alloc, given, head)?;
    let limits = limits_given(given, b'a', &c.name);
    let head = limited(alloc, head, limits, given.moment)?;
    Ok(with_lives(head))
}

/// The record with its keys.
fn added(
    alloc: Global,
    given: &Given,
    c: &AddPrinc,
    ready: &PlainKeys,
    life: u32,
) -> Result<Princ, MemoryOut>
    requires command { IsCommand given.now.realm.now (command.AddPrinc c.now) }
    requires random { length given.now.random.now ≡ 2048 }
    requires ready { ready.now ≡ ready_keys (command.AddPrinc c.now) }
    requires life { life ≡ (numbers_given given.now c.now).max_life }
    ensures { IfOk result (λ made. IsNewRecord given.now c.now made) }
{
    let master = active_master(alloc, given)?;
    let items = new_items(alloc, given, c, ready)?;
    let keys = wrapped_new(alloc, &master.key, given, c, items.as_slice())?;
    let mut made = added_head(alloc, given, c, master.version, life)?;
    made.keys = keys;
    Ok(made)
}

/// `addprinc`, where no cause but the length of the record is left.
fn add(
    alloc: Global,
    given: &Given,
    c: &AddPrinc,
    ready: &PlainKeys,
    life: u32,
) -> Result<Result<Planned, Refusal>, MemoryOut>
    requires realm { IsRealm given.now.realm.now }
    requires command { IsCommand given.now.realm.now (command.AddPrinc c.now) }
    requires random { length given.now.random.now ≡ 2048 }
    requires ready { ready.now ≡ ready_keys (command.AddPrinc c.now) }
    requires life { life ≡ (numbers_given given.now c.now).max_life }
    requires causes { first (add_causes given.now c.now) ≡ None }
    ensures { IfOk result (λ plan. IsJudged given.now (command.AddPrinc c.now) plan) }
{
    let made = added(alloc, given, c, ready, life)?;
    Ok(put(made))
}

/// `addprinc`: the plan of a new principal, judged against rows with wrapped keys. The keys of its password are ready;
/// random ones are taken of the block.
///
/// # Errors
///
/// `MemoryOut` where memory is wanted and not given.
pub fn plan_add(
    alloc: Global,
    given: &Given,
    c: &AddPrinc,
    ready: &PlainKeys,
) -> Result<Result<Planned, Refusal>, MemoryOut>
    requires realm { IsRealm given.now.realm.now }
    requires command { IsCommand given.now.realm.now (command.AddPrinc c.now) }
    requires random { length given.now.random.now ≡ 2048 }
    requires ready { ready.now ≡ ready_keys (command.AddPrinc c.now) }
    ensures { IfOk result (λ plan. IsJudged given.now (command.AddPrinc c.now) plan) }
{
    let text = print_name(alloc, &c.name)?;
    let policy = policy_given(alloc, given, c)?;
    match cause(given, c, text.as_slice(), &policy) {
        Some(why) => Ok(Err(why)),
        None => {
            let life = numbers_for(given.rows, &policy).max_life();
            add(alloc, given, c, ready, life)
        }
    }
}

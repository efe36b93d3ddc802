//! `renprinc`.

ghost use Rattle.std.specs.Prelude.{◌≡◌, ◌∷◌, [], IfOk, None, Some, true, option_map};
ghost use Rattle.std.specs.List.{list_any};
ghost use Rattle.kadm_commands.specs.Commands.{IsCommand};
ghost use Rattle.kadm_commands.specs.declared.commands.Command.TheVariants as command;
ghost use Rattle.command_plans.specs.Causes.{denial_of};
ghost use Rattle.command_plans.specs.Given.{IsJudged};
ghost use Rattle.command_plans.specs.Renaming.{IsRenamed};
ghost use Rattle.command_plans.specs.Targets.{IsBy, IsPut, by_given};
ghost use Rattle.kdb_base.specs.declared.outcomes.Refusal.{Refusal};
ghost use Rattle.kdb_model.specs.Access.{adding, asking, deleting};
ghost use Rattle.kdb_model.specs.Fields.{renamed_head};
ghost use Rattle.kdb_model.specs.Refusals.{is_protected, when};
ghost use Rattle.princ_rows.specs.declared.entries.Op.TheVariants as op;
ghost use Rattle.princ_name.specs.Names.{NameParts, printed};
ghost use Rattle.princ_name.specs.Realms.{IsRealm};
ghost use Rattle.princ_record.specs.Princs.{IsPrinc};
ghost use Rattle.row_keys.specs.KeptKeys.{settled_keys};

use crate::causes::{denied_in, first, found, lockdown, present, when};
use crate::given::Given;
use crate::planned::Planned;
use crate::targets::marked_by;
use kadm_commands::RenPrinc;
use kdb_base::limits::MAX_ROW_LEN;
use kdb_base::{Blob, MemoryOut, Refusal};
use kdb_plain::{is_history_name, is_master_name};
use princ_name::{Name, print_name};
use princ_record::{Princ, copy, encoded_len};
use princ_rows::Op;
use row_keys::settled_keys;
use std::alloc::Global;

/// The refusal of a deletion and of an addition without restrictions.
#[tactic(auto, unfolding(kdb_model::specs::Access::denied_in))]
fn denial_of_both(given: &Given, old: &Name, new: &Name) -> Option<Refusal>
    ensures { result ≡ denial_of (option_map (λ acl. acl.now) given.now.acl) given.now.client.now
        (asking deleting old.now ∷ record { letter = adding; target = Some new.now; plainly = true } ∷ []) }
{
    match given.acl {
        Some(acl) => match denied_in(acl, given.client, b'd', Some(old), false) {
            Some(why) => Some(why),
            None => denied_in(acl, given.client, b'a', Some(new), true),
        },
        None => None,
    }
}

/// One of both is a principal with the database's own keys.
#[tactic(auto, unfolding(kdb_model::specs::Refusals::is_protected))]
fn protection_of_both(given: &Given, old: &[u8], new: &[u8]) -> Option<Refusal>
    ensures { (a b : NameParts) → old.now ≡ printed a → new.now ≡ printed b
        → result ≡ when (list_any (is_protected given.now.realm.now) (a ∷ b ∷ [])) Refusal.Protected }
{
    let realm = given.realm;
    let first = is_master_name(realm, old) || is_history_name(realm, old);
    let second = is_master_name(realm, new) || is_history_name(realm, new);
    when(first || second, Refusal::Protected)
}

/// The record under its new name. Keys of the old name's salt keep it.
fn renamed(alloc: Global, given: &Given, c: &RenPrinc, princ: &Princ) -> Result<Princ, MemoryOut>
    ensures princ { IfOk result (λ p. p ≡ record (renamed_head (printed c.now.new_name) (by_given given.now) princ.now)
        { keys = settled_keys c.now.name princ.now.keys }) }
    ensures by { IfOk result (λ p. IsBy (by_given given.now)) }
{
    let name = print_name(alloc, &c.new_name)?;
    let keys = settled_keys(alloc, &c.name, princ.keys.as_slice())?;
    let mut made = copy(alloc, princ)?;
    made.name = name;
    made.keys = keys;
    marked_by(alloc, given, made)
}

/// The change that puts this record in the place of the one of the old name, if it is short enough.
fn put_renamed(old: Blob, princ: Princ) -> Result<Planned, Refusal>
    requires { IsPrinc princ }
    ensures { IsPut (op.Rename old) princ result }
{
    let size = encoded_len(&princ);
    if size > MAX_ROW_LEN {
        return Err(Refusal::RecordTooLarge { size: size as u64 });
    }
    Ok(Planned::Change(Op::Rename(old, princ)))
}

/// `renprinc` of this record.
fn rename(
    alloc: Global,
    given: &Given,
    c: &RenPrinc,
    old: Blob,
    princ: &Princ,
) -> Result<Result<Planned, Refusal>, MemoryOut>
    requires realm { IsRealm given.now.realm.now }
    requires command { IsCommand given.now.realm.now (command.RenPrinc c.now) }
    requires old { old ≡ printed c.now.name }
    requires renamed { IsRenamed given.now c.now princ.now }
    ensures { IfOk result (λ plan. IsJudged given.now (command.RenPrinc c.now) plan) }
{
    let made = renamed(alloc, given, c, princ)?;
    Ok(put_renamed(old, made))
}

/// `renprinc`.
pub fn plan_rename(
    alloc: Global,
    given: &Given,
    c: &RenPrinc,
) -> Result<Result<Planned, Refusal>, MemoryOut>
    requires realm { IsRealm given.now.realm.now }
    requires command { IsCommand given.now.realm.now (command.RenPrinc c.now) }
    ensures { IfOk result (λ plan. IsJudged given.now (command.RenPrinc c.now) plan) }
{
    let old = print_name(alloc, &c.name)?;
    let new = print_name(alloc, &c.new_name)?;
    let before = [
        denial_of_both(given, &c.name, &c.new_name),
        protection_of_both(given, old.as_slice(), new.as_slice()),
        when(found(given, new.as_slice()).is_some(), Refusal::Duplicate),
    ];
    let standing = found(given, old.as_slice());
    match present(first(&before), standing, Refusal::UnknownPrincipal) {
        Ok(princ) => match lockdown(given, Some(princ)) {
            Some(why) => Ok(Err(why)),
            None => rename(alloc, given, c, old, princ),
        },
        Err(why) => Ok(Err(why)),
    }
}

//! `add_mkey`.

ghost use Rattle.std.specs.Prelude.{◌≡◌, ◌∷◌, [], IfOk, None, length};
ghost use Rattle.std.specs.List.{last_or};
ghost use Rattle.kadm_commands.specs.declared.commands.Command.TheVariants as command;
ghost use Rattle.kdb_model.specs.Masters.{new_etype};
ghost use Rattle.kdb_model.specs.Refusals.{first};
ghost use Rattle.master_keys.specs.Versions.{last_version};
ghost use Rattle.mkey_admin.specs.KeptMasters.{confounders};
ghost use Rattle.mkey_admin.specs.Plans.{IsEntry, IsMasterJudged, master_denied, masters_full};
ghost use Rattle.princ_name.specs.Realms.{IsRealm};

use crate::entry::{master_denial, master_entry, put};
use crate::planned::{MasterPlan, Told};
use command_plans::causes::{first, when};
use command_plans::given::Given;
use kdb_base::limits::MAX_MASTERS;
use kdb_base::{Etype, Master, Masters, MemoryOut, PlainKey, Refusal};
use master_keys::{add, holds_chain};
use princ_record::Princ;
use std::alloc::Global;

/// The newest master key.
fn newest_master(masters: &Masters) -> Option<Master>
    ensures { result ≡ last_or None masters.now }
{
    match masters.as_slice() {
        [] => None,
        [.., newest] => Some(*newest),
    }
}

/// The greatest version, 0 where there is none.
#[tactic(auto, unfolding(master_keys::specs::Versions::last_version))]
fn last_version(masters: &Masters) -> u16
    ensures { result ≡ last_version masters.now }
{
    match newest_master(masters) {
        Some(master) => master.version,
        None => 0,
    }
}

/// No version more may be listed, or none is left.
fn fullness(given: &Given) -> Option<Refusal>
    ensures { result ≡ masters_full given.now }
{
    let count = given.masters.as_slice().len();
    let full = count >= MAX_MASTERS || last_version(given.masters) == u16::MAX;
    when(
        full,
        Refusal::TooManyMasters {
            limit: MAX_MASTERS as u32,
        },
    )
}

fn new_etype(given: Option<Etype>, newest: &Master) -> Etype
    ensures { result ≡ new_etype given newest.now }
{
    match given {
        Some(etype) => etype,
        None => newest.key.etype(),
    }
}

/// The bytes behind those of a new key.
fn confounders(etype: Etype, random: &[u8]) -> [u8; 1008]
    requires { length random.now ≡ 2048 }
    ensures { result ≡ confounders etype random.now }
{
    let from = etype.key_len();
    let mut bytes = [0; 1008];
    bytes.copy_from_slice(&random[from..from + 1008]);
    bytes
}

/// `add_mkey`, at K/M's record.
fn added(
    alloc: Global,
    given: &Given,
    asked: Option<Etype>,
    entry: &Princ,
) -> Result<Result<MasterPlan, Refusal>, MemoryOut>
    requires random { length given.now.random.now ≡ 2048 }
    requires front { first (master_denied given.now ∷ masters_full given.now ∷ []) ≡ None }
    requires entry { IsEntry given.now entry.now }
    ensures { IfOk result (λ plan. IsMasterJudged given.now (command.AddMaster asked) plan) }
{
    let Some(newest) = newest_master(given.masters) else {
        return Err(MemoryOut);
    };
    if !holds_chain(alloc, entry, given.masters)? {
        return Err(MemoryOut);
    }
    let etype = new_etype(asked, &newest);
    let (bytes, _) = given.random.split_at(etype.key_len());
    let key = PlainKey::from_bytes(etype, bytes);
    let confounders = confounders(etype, given.random);
    let (made, masters) = add(alloc, entry, given.masters, &key, &confounders)?;
    let version = made.mkvno;
    Ok(put(made, masters, Told::Added(version)))
}

/// `add_mkey`: adds the version behind the greatest one, which is not active. Its encryption type is that of the newest
/// master key, unless one is asked for. The key is the front of the block of random bytes, and the confounders follow.
///
/// # Errors
///
/// `MemoryOut` where memory is wanted and not given, or the rows show no state.
pub fn plan_add(
    alloc: Global,
    given: &Given,
    asked: Option<Etype>,
) -> Result<Result<MasterPlan, Refusal>, MemoryOut>
    requires realm { IsRealm given.now.realm.now }
    requires random { length given.now.random.now ≡ 2048 }
    ensures { IfOk result (λ plan. IsMasterJudged given.now (command.AddMaster asked) plan) }
{
    let denied = master_denial(alloc, given)?;
    let causes = [denied, fullness(given)];
    match first(&causes) {
        Some(why) => Ok(Err(why)),
        None => {
            let entry = master_entry(alloc, given)?;
            added(alloc, given, asked, entry)
        }
    }
}

//! `use_mkey`.

ghost use Rattle.std.specs.Prelude.{◌≡◌, ◌<◌, ◌≤◌, ◌^◌, ◌∷◌, [], IfOk, None, option_map, unwrap_or};
ghost use Rattle.kadm_commands.specs.Commands.{IsCommand};
ghost use Rattle.kadm_commands.specs.declared.commands.Command.TheVariants as command;
ghost use Rattle.kdb_model.specs.Refusals.{first};
ghost use Rattle.key_activation.specs.Activations.{with_activation};
ghost use Rattle.mkey_admin.specs.KeptMasters.{kept_used, with_activations};
ghost use Rattle.mkey_admin.specs.Plans.{IsEntry, IsMasterJudged, master_denied, version_unknown};
ghost use Rattle.princ_name.specs.Realms.{IsRealm};

use crate::entry::{chain_part, master_denial, master_entry, put};
use crate::planned::{MasterPlan, Told};
use command_plans::causes::{first, when};
use command_plans::given::Given;
use kadm_commands::UseMaster;
use kdb_base::{Activations, Masters, MemoryOut, Refusal};
use kdb_plain::master_of;
use key_activation::{active_at, set};
use princ_record::{ChainPart, Princ, copy};
use std::alloc::Global;

/// No master key has the version.
fn unlisted(given: &Given, version: u16) -> Option<Refusal>
    ensures { result ≡ version_unknown given.now version }
{
    when(
        master_of(given.masters, version).is_none(),
        Refusal::UnknownMaster {
            version: u32::from(version),
        },
    )
}

/// The seconds from which on the version may be active.
fn use_secs(given: &Given, c: &UseMaster) -> u32
    ensures value { result ≡ unwrap_or c.now.secs given.now.moment.secs }
    ensures short { result < 2 ^ 32 }
{
    match c.secs {
        Some(secs) => secs,
        None => given.moment.secs(),
    }
}

/// The activations with that of this version.
fn used_activations(
    alloc: Global,
    list: &Activations,
    version: u16,
    secs: u32,
) -> Result<Activations, MemoryOut>
    requires { 1 ≤ version }
    ensures { IfOk result (λ used. used ≡ with_activation version secs list.now) }
{
    let mut used = Activations::from_vec(list.as_slice().to_vec(alloc)?);
    set(alloc, &mut used, version, secs)?;
    Ok(used)
}

fn copy_masters(alloc: Global, masters: &Masters) -> Result<Masters, MemoryOut>
    ensures { IfOk result (λ x. x ≡ masters.now) }
{
    let items = masters.as_slice().to_vec(alloc)?;
    Ok(Masters::from_vec(items))
}

/// What stands at K/M alone, with these activations.
fn with_list(chain: Option<ChainPart>, activations: Activations) -> Option<ChainPart>
    ensures { result ≡ option_map (with_activations activations) chain }
{
    match chain {
        Some(part) => Some(ChainPart {
            activations,
            aux: part.aux,
        }),
        None => None,
    }
}

/// The record with these activations.
fn with_activations(
    alloc: Global,
    entry: &Princ,
    activations: Activations,
) -> Result<Princ, MemoryOut>
    ensures { IfOk result (λ p. p ≡ kept_used activations entry.now) }
{
    let mut made = copy(alloc, entry)?;
    made.chain = with_list(made.chain, activations);
    Ok(made)
}

/// `use_mkey` of a listed version, at K/M's record.
fn activate(
    alloc: Global,
    given: &Given,
    c: &UseMaster,
    entry: &Princ,
) -> Result<Result<MasterPlan, Refusal>, MemoryOut>
    requires command { IsCommand given.now.realm.now (command.UseMaster c.now) }
    requires front { first (version_unknown given.now c.now.version ∷ master_denied given.now ∷ []) ≡ None }
    requires entry { IsEntry given.now entry.now }
    ensures { IfOk result (λ plan. IsMasterJudged given.now (command.UseMaster c.now) plan) }
{
    let part = chain_part(entry)?;
    let secs = use_secs(given, c);
    let activations = used_activations(alloc, &part.activations, c.version, secs)?;
    match active_at(&activations, given.moment.secs()) {
        None => Ok(Err(Refusal::NoActiveMaster)),
        Some(_) => {
            let made = with_activations(alloc, entry, activations)?;
            let masters = copy_masters(alloc, given.masters)?;
            Ok(put(made, masters, Told::Used(c.version, secs)))
        }
    }
}

/// `use_mkey`: sets from when on the version may be active, at the moment unless a time is given.
///
/// # Errors
///
/// `MemoryOut` where memory is wanted and not given, or the rows show no state.
pub fn plan_use(
    alloc: Global,
    given: &Given,
    c: &UseMaster,
) -> Result<Result<MasterPlan, Refusal>, MemoryOut>
    requires realm { IsRealm given.now.realm.now }
    requires command { IsCommand given.now.realm.now (command.UseMaster c.now) }
    ensures { IfOk result (λ plan. IsMasterJudged given.now (command.UseMaster c.now) plan) }
{
    let denied = master_denial(alloc, given)?;
    let causes = [unlisted(given, c.version), denied];
    match first(&causes) {
        Some(why) => Ok(Err(why)),
        None => {
            let entry = master_entry(alloc, given)?;
            activate(alloc, given, c, entry)
        }
    }
}

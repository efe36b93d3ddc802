//! `list_mkeys`.

ghost use Rattle.std.specs.Prelude.{◌≡◌, IfOk, find, nat_eq};
ghost use Rattle.kadm_commands.specs.declared.commands.Command.TheVariants as command;
ghost use Rattle.key_activation.specs.Activations.{activation_of};
ghost use Rattle.mkey_admin.specs.Plans.{IsMasterJudged};
ghost use Rattle.mkey_admin.specs.Told.{master_told, masters_told};
ghost use Rattle.princ_name.specs.Realms.{IsRealm};
ghost use Rattle.serving_versions.specs.Versions.{is_active_at};

use crate::entry::{chain_part, master_denial, master_entry};
use crate::planned::MasterPlan;
use command_plans::given::Given;
use kadm_commands::{MasterRow, MasterRows, Reply};
use kdb_base::{Activation, Activations, Master, Masters, MemoryOut, Refusal};
use key_activation::active_at;
use std::alloc::Global;

fn activation_named(list: &[Activation], version: u16) -> Option<Activation>
    ensures { result ≡ find (λ a. nat_eq a.version version) list.now }
{
    list.iter()
        .copied()
        .find(|activation| activation.version == version)
}

/// When the version becomes or became active.
#[tactic(auto, unfolding(key_activation::specs::Activations::activation_of))]
fn activation_of(list: &Activations, version: u16) -> Option<u32>
    ensures { result ≡ activation_of version list.now }
{
    match activation_named(list.as_slice(), version) {
        Some(activation) => Some(activation.secs),
        None => None,
    }
}

fn is_active_at(list: &Activations, secs: u32, version: u16) -> bool
    ensures { result ≡ is_active_at list.now secs version }
{
    match active_at(list, secs) {
        Some(active) => active == version,
        None => false,
    }
}

fn master_told(list: &Activations, secs: u32, master: &Master) -> MasterRow
    ensures { result ≡ master_told list.now secs master.now }
{
    MasterRow {
        version: master.version,
        etype: master.key.etype(),
        secs: activation_of(list, master.version),
        active: is_active_at(list, secs, master.version),
    }
}

/// Each master key, with its activation.
#[tactic(auto, unfolding(crate::specs::Told::masters_told))]
fn masters_told(
    alloc: Global,
    masters: &Masters,
    activations: &Activations,
    secs: u32,
) -> Result<MasterRows, MemoryOut>
    ensures { IfOk result (λ rows. rows ≡ masters_told masters.now activations.now secs) }
{
    let masters = masters.as_slice();
    let mut rows = Vec::with_capacity(alloc, masters.len())?;
    for master in masters {
        rows.push(master_told(activations, secs, master))?;
    }
    Ok(MasterRows::from_vec(rows))
}

/// `list_mkeys`: each listed version, with its activation.
///
/// # Errors
///
/// `MemoryOut` where memory is wanted and not given, or the rows show no state.
pub fn list(alloc: Global, given: &Given) -> Result<Result<MasterPlan, Refusal>, MemoryOut>
    requires realm { IsRealm given.now.realm.now }
    ensures { IfOk result (λ plan. IsMasterJudged given.now command.ListMasters plan) }
{
    match master_denial(alloc, given)? {
        Some(why) => Ok(Err(why)),
        None => {
            let entry = master_entry(alloc, given)?;
            let part = chain_part(entry)?;
            let rows = masters_told(alloc, given.masters, &part.activations, given.moment.secs())?;
            Ok(Ok(MasterPlan::Answer(Reply::MastersListed(rows))))
        }
    }
}

//! `purge_mkeys`.

ghost use Rattle.std.specs.Prelude.{◌≡◌, ◌≢◌, ◌<◌, [], IfOk, None, get_or, length};
ghost use Rattle.kadm_commands.specs.declared.commands.Command.TheVariants as command;
ghost use Rattle.mkey_admin.specs.Plans.{IsEntry, IsMasterJudged, IsPurge, grounds_of, master_denied};
ghost use Rattle.mkey_admin.specs.Told.{dead_told, versions_told};
ghost use Rattle.princ_name.specs.Realms.{IsRealm};
ghost use Rattle.serving_versions.specs.Versions.{cause_from};

use crate::counting::counts_of;
use crate::entry::{chain_part, master_denial, master_entry, put};
use crate::planned::{MasterPlan, Told};
use command_plans::given::Given;
use kadm_commands::{PurgeRow, PurgeRows, Reply};
use kdb_base::{Activations, Master, MemoryOut, Refusal};
use master_keys::{holds_chain, purge};
use princ_record::Princ;
use serving_versions::cause_from;
use std::alloc::Global;

/// A version, and why it serves at the moment. The counts stand beside the master keys.
fn version_told(
    given: &Given,
    activations: &Activations,
    counts: &[u32],
    at: usize,
    master: &Master,
) -> PurgeRow
    requires { at < length counts.now }
    ensures { result ≡ record {
      version = master.now.version;
      cause = cause_from (get_or counts.now at 0) given.now.masters.now activations.now given.now.moment.secs
          master.now.version;
    } }
{
    let cause = cause_from(
        counts[at],
        given.masters,
        activations,
        given.moment.secs(),
        master.version,
    );
    PurgeRow {
        version: master.version,
        cause,
    }
}

/// Each listed version, and why it serves at the moment.
#[tactic(auto, unfolding(crate::specs::Told::versions_told))]
fn versions_told(
    alloc: Global,
    given: &Given,
    activations: &Activations,
) -> Result<PurgeRows, MemoryOut>
    ensures { IfOk result (λ rows. rows ≡ versions_told (grounds_of given.now activations.now)) }
{
    let counted = counts_of(alloc, given)?;
    let counts = counted.as_slice();
    let masters = given.masters.as_slice();
    let mut rows = Vec::with_capacity(alloc, masters.len())?;
    for (at, master) in masters.iter().enumerate() {
        rows.push(version_told(given, activations, counts, at, master))?;
    }
    Ok(PurgeRows::from_vec(rows))
}

/// The versions that do not serve.
#[tactic(auto, unfolding(crate::specs::Told::dead_told))]
fn dead_told(alloc: Global, rows: &PurgeRows) -> Result<Vec<u16>, MemoryOut>
    ensures { IfOk result (λ dead. dead.items ≡ dead_told rows.now) }
{
    let dead = rows
        .as_slice()
        .iter()
        .filter(|row| row.cause.is_none())
        .map(|row| row.version)
        .collect(alloc)?;
    Ok(dead)
}

/// `purge_mkeys` of these versions, at K/M's record.
fn purged(
    alloc: Global,
    given: &Given,
    entry: &Princ,
    rows: PurgeRows,
    dead: &[u16],
) -> Result<Result<MasterPlan, Refusal>, MemoryOut>
    requires allowed { master_denied given.now ≡ None }
    requires entry { IsEntry given.now entry.now }
    requires purge { IsPurge given.now entry.now rows dead.now }
    requires some { dead.now ≢ [] }
    ensures { IfOk result (λ plan. IsMasterJudged given.now command.PurgeMasters plan) }
{
    if !holds_chain(alloc, entry, given.masters)? {
        return Err(MemoryOut);
    }
    let (made, masters) = purge(alloc, entry, given.masters, dead)?;
    Ok(put(made, masters, Told::Purged(rows)))
}

/// `purge_mkeys`: deletes every version that does not serve at the moment, with its activation.
///
/// # Errors
///
/// `MemoryOut` where memory is wanted and not given, or the rows show no state.
pub fn plan_purge(alloc: Global, given: &Given) -> Result<Result<MasterPlan, Refusal>, MemoryOut>
    requires realm { IsRealm given.now.realm.now }
    ensures { IfOk result (λ plan. IsMasterJudged given.now command.PurgeMasters plan) }
{
    match master_denial(alloc, given)? {
        Some(why) => Ok(Err(why)),
        None => {
            let entry = master_entry(alloc, given)?;
            let part = chain_part(entry)?;
            let rows = versions_told(alloc, given, &part.activations)?;
            let dead = dead_told(alloc, &rows)?;
            if dead.is_empty() {
                return Ok(Ok(MasterPlan::Answer(Reply::MastersPurged(None, rows))));
            }
            purged(alloc, given, entry, rows, &dead)
        }
    }
}

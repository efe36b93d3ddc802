//! A script run over a database that is made for it, in memory.

ghost use Rattle.std.specs.Prelude.{◌≡◌, false, IfOk, Some};
ghost use Rattle.kdb_histories.specs.Seen.{seen};
ghost use Rattle.kdb_plain.specs.declared.states.State.{State};
ghost use Rattle.made_scripts.specs.Plays.{no_tally, played, progress};
ghost use Rattle.made_scripts.specs.Runs.{own_draws, summary_at, summary_behind, summary_of, told_of};
ghost use Rattle.made_scripts.specs.Scripts.{lines_of};
ghost use Rattle.kadm_session.specs.Opened.{HasState, place_of};
ghost use Rattle.session_base.specs.Draws.{Draws, told_draws};
ghost use Rattle.store_files.specs.Kept.{IsOnDisk};

use crate::counts::{count_keys, count_princs};
use crate::making::{create, own_spec};
use crate::plays::{Tally, play};
use crate::summaries::{Summary, print_summary};
use crate::words::Script;
use kadm_session::Primary;
use kdb_base::{Blob, Fails, MemoryOut, Time};
use kdb_disk::{Disk, MemoryDisk};
use kdb_ports::{ChaChaEntropy, Clock, Entropy, MemoryClock};
use std::alloc::Global;

/// The second at which the clock stands.
const SECOND: u32 = 1_700_000_000;

/// What is told of what is open, behind so many lines.
fn summary_at(lines: u32, tally: Tally, primary: &Primary) -> Summary
    ensures { result ≡ summary_at lines tally (place_of primary.now) }
{
    let rows = primary.database().rows();
    Summary {
        lines,
        accepted: tally.accepted,
        refused: tally.refused,
        principals: count_princs(rows),
        keys: count_keys(rows),
        point: primary.point(),
    }
}

/// Plays a script over what is open, and tells of it.
fn play_through<D: Disk, C: Clock, E: Entropy>(
    alloc: Global,
    script: Script,
    primary: &mut Primary,
    disk: &mut D,
    clock: &mut C,
    entropy: &mut E,
) -> Result<Summary, MemoryOut>
    requires on { D.tells → IsOnDisk primary.old.kept (D.view disk.old) }
    requires whole { primary.old.kept.broken ≡ false }
    ensures { (s : State) (draws : Draws) → HasState primary.old s
        → told_draws (C.moments clock.old) (E.stream entropy.old) ≡ Some draws
        → IfOk result (λ summary. summary ≡ summary_behind script.count
        (played (lines_of script) (progress (seen (place_of primary.old) s) draws no_tally))) }
{
    let tally = play(alloc, script, primary, disk, clock, entropy)?;
    Ok(summary_at(script.count, tally, primary))
}

/// Makes a database, plays a script over it and tells of it. The disk has to be new.
///
/// # Errors
///
/// `MemoryOut` where memory is wanted and not given, or where the disk or the source of random bytes fails.
pub fn run_over<D: Disk, C: Clock, E: Entropy>(
    alloc: Global,
    script: Script,
    disk: &mut D,
    clock: &mut C,
    entropy: &mut E,
) -> Result<Summary, MemoryOut>
    ensures { (draws : Draws) → told_draws (C.moments clock.old) (E.stream entropy.old) ≡ Some draws
        → IfOk result (λ summary. summary ≡ summary_of script draws) }
{
    let spec = own_spec(alloc)?;
    let mut primary = create(alloc, &spec, disk, clock, entropy)?;
    play_through(alloc, script, &mut primary, disk, clock, entropy)
}

/// Runs a script over a disk, a clock and a source of random bytes of its own, all in memory, and gives the text that
/// tells of it. It touches nothing else, so that the text is a function of the script.
///
/// # Errors
///
/// `MemoryOut` where memory is wanted and not given. A fault of the disk in memory has no other cause.
#[tactic(auto, unfolding(crate::specs::Runs::told_of))]
pub fn run_script(alloc: Global, script: Script) -> Result<Blob, MemoryOut>
    ensures { IfOk result (λ text. text ≡ told_of script) }
{
    let mut disk = MemoryDisk::new(alloc, Fails::none(alloc))?;
    let mut clock = MemoryClock::new(Time::new(SECOND, 0));
    let mut entropy = ChaChaEntropy::new(&[0; 32], Fails::none(alloc));
    let summary = run_over(alloc, script, &mut disk, &mut clock, &mut entropy)?;
    print_summary(alloc, &summary)
}

//! A script played over an open primary, line by line. The replies are counted and not kept.

ghost use Rattle.std.specs.Prelude.{◌≡◌, ◌<◌, ◌+◌, ◌^◌, false, IfOk, OnOk, Some};
ghost use Rattle.kadm_session.specs.Input.{IsAsked};
ghost use Rattle.kdb_histories.specs.Seen.{seen};
ghost use Rattle.kdb_plain.specs.declared.states.State.{State};
ghost use Rattle.made_scripts.specs.Plays.{IsAnswered, IsPlayed, asked_line, counted, no_tally, played, progress};
ghost use Rattle.made_scripts.specs.Scripts.{line_at, lines_of};
ghost use Rattle.kadm_session.specs.Opened.{HasState, place_of};
ghost use Rattle.session_base.specs.Draws.{Draws, told_draws};
ghost use Rattle.store_files.specs.Kept.{IsOnDisk};

use crate::asking::read_line;
use crate::lines::make_line;
use crate::words::Script;
use kadm_session::{Asked, Primary, serve_one};
use kdb_base::{Fails, MemoryOut};
use kdb_disk::Disk;
use kdb_ports::{Clock, Entropy, MemorySink, Sink};
use std::alloc::Global;

/// How many lines were accepted, and how many refused.
#[derive(Clone, Copy, Debug, PartialEq, Eq)]
pub struct Tally {
    pub accepted: u32,
    pub refused: u32,
}

/// With one answer more.
fn counted(refused: bool, tally: Tally) -> Tally
    requires { tally.accepted + tally.refused + 1 < 2 ^ 32 }
    ensures value { result ≡ counted refused tally }
    ensures sum { result.accepted + result.refused ≡ tally.accepted + tally.refused + 1 }
{
    if refused {
        Tally {
            accepted: tally.accepted,
            refused: tally.refused + 1,
        }
    } else {
        Tally {
            accepted: tally.accepted + 1,
            refused: tally.refused,
        }
    }
}

/// Does what is asked for, as a session of that alone, and answers whether it was refused. Over a disk, a clock and a
/// source in memory nothing but want of memory can end it.
fn answer<K: Sink, D: Disk, C: Clock, E: Entropy>(
    alloc: Global,
    primary: &mut Primary,
    disk: &mut D,
    sink: &mut K,
    clock: &mut C,
    entropy: &mut E,
    asked: &Asked,
) -> Result<bool, MemoryOut>
    requires asked { IsAsked primary.old.kept.realm asked.now }
    requires on { D.tells → IsOnDisk primary.old.kept (D.view disk.old) }
    requires whole { primary.old.kept.broken ≡ false }
    ensures answered { (s : State) (draws : Draws) → HasState primary.old s
        → told_draws (C.moments clock.old) (E.stream entropy.old) ≡ Some draws
        → IfOk result (λ refused. IsAnswered asked.now draws (seen (place_of primary.old) s) refused primary.new
        (told_draws (C.moments clock.new) (E.stream entropy.new))) }
    ensures on { D.tells → OnOk result (IsOnDisk primary.new.kept (D.view disk.new)) }
    ensures whole { OnOk result (primary.new.kept.broken ≡ false) }
{
    match serve_one(alloc, primary, disk, sink, clock, entropy, asked) {
        Ok(refused) => Ok(refused),
        Err(_) => Err(MemoryOut),
    }
}

/// Does what is asked for, and answers whether it was refused. The reply goes to a sink of its own.
fn answer_alone<D: Disk, C: Clock, E: Entropy>(
    alloc: Global,
    primary: &mut Primary,
    disk: &mut D,
    clock: &mut C,
    entropy: &mut E,
    asked: &Asked,
) -> Result<bool, MemoryOut>
    requires asked { IsAsked primary.old.kept.realm asked.now }
    requires on { D.tells → IsOnDisk primary.old.kept (D.view disk.old) }
    requires whole { primary.old.kept.broken ≡ false }
    ensures answered { (s : State) (draws : Draws) → HasState primary.old s
        → told_draws (C.moments clock.old) (E.stream entropy.old) ≡ Some draws
        → IfOk result (λ refused. IsAnswered asked.now draws (seen (place_of primary.old) s) refused primary.new
        (told_draws (C.moments clock.new) (E.stream entropy.new))) }
    ensures on { D.tells → OnOk result (IsOnDisk primary.new.kept (D.view disk.new)) }
    ensures whole { OnOk result (primary.new.kept.broken ≡ false) }
{
    let mut sink = MemorySink::new(alloc, Fails::none(alloc))?;
    answer(alloc, primary, disk, &mut sink, clock, entropy, asked)
}

/// Does what a line asks for, and answers whether it was refused.
fn play_line<D: Disk, C: Clock, E: Entropy>(
    alloc: Global,
    primary: &mut Primary,
    disk: &mut D,
    clock: &mut C,
    entropy: &mut E,
    line: &[u8],
) -> Result<bool, MemoryOut>
    requires on { D.tells → IsOnDisk primary.old.kept (D.view disk.old) }
    requires whole { primary.old.kept.broken ≡ false }
    ensures answered { (s : State) (draws : Draws) → HasState primary.old s
        → told_draws (C.moments clock.old) (E.stream entropy.old) ≡ Some draws
        → IfOk result (λ refused. IsAnswered (asked_line primary.old.kept.realm line.now) draws
        (seen (place_of primary.old) s) refused primary.new (told_draws (C.moments clock.new) (E.stream entropy.new))) }
    ensures on { D.tells → OnOk result (IsOnDisk primary.new.kept (D.view disk.new)) }
    ensures whole { OnOk result (primary.new.kept.broken ≡ false) }
{
    let asked = read_line(alloc, line, primary.realm().as_slice())?;
    answer_alone(alloc, primary, disk, clock, entropy, &asked)
}

/// Makes the line of this number, and does what it asks for.
fn play_number<D: Disk, C: Clock, E: Entropy>(
    alloc: Global,
    primary: &mut Primary,
    disk: &mut D,
    clock: &mut C,
    entropy: &mut E,
    seed: u32,
    number: u32,
) -> Result<bool, MemoryOut>
    requires on { D.tells → IsOnDisk primary.old.kept (D.view disk.old) }
    requires whole { primary.old.kept.broken ≡ false }
    ensures answered { (s : State) (draws : Draws) → HasState primary.old s
        → told_draws (C.moments clock.old) (E.stream entropy.old) ≡ Some draws
        → IfOk result (λ refused. IsAnswered (asked_line primary.old.kept.realm (line_at seed number)) draws
        (seen (place_of primary.old) s) refused primary.new (told_draws (C.moments clock.new) (E.stream entropy.new))) }
    ensures on { D.tells → OnOk result (IsOnDisk primary.new.kept (D.view disk.new)) }
    ensures whole { OnOk result (primary.new.kept.broken ≡ false) }
{
    let line = make_line(alloc, seed, number)?;
    play_line(alloc, primary, disk, clock, entropy, line.as_slice())
}

/// Plays the lines of a script one after another.
pub fn play<D: Disk, C: Clock, E: Entropy>(
    alloc: Global,
    script: Script,
    primary: &mut Primary,
    disk: &mut D,
    clock: &mut C,
    entropy: &mut E,
) -> Result<Tally, MemoryOut>
    requires on { D.tells → IsOnDisk primary.old.kept (D.view disk.old) }
    requires whole { primary.old.kept.broken ≡ false }
    ensures { (s : State) (draws : Draws) → HasState primary.old s
        → told_draws (C.moments clock.old) (E.stream entropy.old) ≡ Some draws
        → IfOk result
        (IsPlayed (played (lines_of script) (progress (seen (place_of primary.old) s) draws no_tally)) primary.new) }
{
    let mut tally = Tally {
        accepted: 0,
        refused: 0,
    };
    for number in 0..script.count {
        let refused = play_number(alloc, primary, disk, clock, entropy, script.seed, number)?;
        tally = counted(refused, tally);
    }
    Ok(tally)
}

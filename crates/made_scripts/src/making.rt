//! The database that a script is played over.

ghost use Rattle.std.specs.Prelude.{◌≡◌, false, IfOk, Some, length};
ghost use Rattle.first_rows.specs.Creation.{first_state};
ghost use Rattle.made_scripts.specs.Runs.{IsMade, own_realm, own_spec};
ghost use Rattle.kadm_session.specs.Opened.{HasState, place_of};
ghost use Rattle.kadm_session.specs.Opening.{first_place};
ghost use Rattle.session_base.specs.Draws.{Draws, told_draws};
ghost use Rattle.store_files.specs.Kept.{IsOnDisk};

use first_rows::CreateSpec;
use kadm_session::Primary;
use kdb_base::{Etype, MemoryOut, Time};
use kdb_disk::Disk;
use kdb_ports::{Clock, Entropy};
use princ_name::Realm;
use session_base::draw;
use std::alloc::Global;

/// The length of a block of random bytes.
const BLOCK: usize = 2048;

/// How many entries the log holds.
const LOG_SIZE: u32 = 1000;

/// The realm.
#[tactic(auto, unfolding(crate::specs::Runs::own_realm))]
fn own_realm(alloc: Global) -> Result<Realm, MemoryOut>
    ensures { IfOk result (λ realm. realm ≡ own_realm) }
{
    Realm::from_bytes(alloc, b"EXAMPLE.ORG")
}

/// What the creation is asked for.
pub(crate) fn own_spec(alloc: Global) -> Result<CreateSpec, MemoryOut>
    ensures { IfOk result (λ spec. spec ≡ own_spec) }
{
    let realm = own_realm(alloc)?;
    Ok(CreateSpec::new(realm, None, Etype::Aes256, LOG_SIZE))
}

/// Makes the database at this moment and with this block. Over a new disk in memory nothing but want of memory can
/// refuse it.
fn create_at<D: Disk>(
    alloc: Global,
    spec: &CreateSpec,
    disk: &mut D,
    moment: Time,
    random: &[u8],
) -> Result<Primary, MemoryOut>
    requires { length random.now ≡ 2048 }
    ensures place { IfOk result (λ o. place_of o ≡ first_place spec.now moment random.now) }
    ensures state { IfOk result (λ o. HasState o (first_state spec.now moment random.now)) }
    ensures whole { IfOk result (λ o. o.kept.broken ≡ false) }
    ensures on { D.tells → IfOk result (λ o. IsOnDisk o.kept (D.view disk.new)) }
{
    match Primary::create(alloc, disk, spec, moment, random) {
        Ok(primary) => Ok(primary),
        Err(_) => Err(MemoryOut),
    }
}

/// Makes the database at the clock's next moment and with the next block of random bytes.
pub(crate) fn create<D: Disk, C: Clock, E: Entropy>(
    alloc: Global,
    spec: &CreateSpec,
    disk: &mut D,
    clock: &mut C,
    entropy: &mut E,
) -> Result<Primary, MemoryOut>
    requires { spec.now ≡ own_spec }
    ensures made { (draws : Draws) → told_draws (C.moments clock.old) (E.stream entropy.old) ≡ Some draws
        → IfOk result (λ o. IsMade draws o (told_draws (C.moments clock.new) (E.stream entropy.new))) }
    ensures whole { IfOk result (λ o. o.kept.broken ≡ false) }
    ensures on { D.tells → IfOk result (λ o. IsOnDisk o.kept (D.view disk.new)) }
{
    let moment = clock.now();
    match draw(alloc, entropy, BLOCK) {
        Ok(random) => create_at(alloc, spec, disk, moment, random.as_slice()),
        Err(_) => Err(MemoryOut),
    }
}

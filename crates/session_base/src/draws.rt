ghost use Rattle.std.specs.Prelude.{◌≡◌, ◌⊎◌, Err, IfErr, IfOk, IfSome, OnOk, length, option_map};
ghost use Rattle.session_base.specs.Draws.{bytes_of};
ghost use Rattle.session_base.specs.Halts.{Counts};
ghost use Rattle.kdb_ports.specs.Told.{later_bytes};

use crate::halts::SessionHalt;
use kdb_ports::Entropy;
use std::alloc::Global;

/// So many random bytes. Nothing is drawn where memory is wanted and not there.
pub fn draw<E: Entropy>(
    alloc: Global,
    entropy: &mut E,
    count: usize,
) -> Result<Vec<u8>, SessionHalt>
    ensures length { IfOk result (λ bytes. length bytes.items ≡ count) }
    ensures value { IfOk result
        (λ bytes. IfSome (E.stream entropy.old) (λ stream. bytes.items ≡ bytes_of count stream)) }
    ensures rest { OnOk result (E.stream entropy.new ≡ option_map (later_bytes count) (E.stream entropy.old)) }
    ensures halt { IfErr result (λ halt. (halt ≡ SessionHalt.MemoryOut) ⊎ (halt ≡ SessionHalt.DrawFault)) }
    ensures faults { Counts (E.faults entropy.old) (E.faults entropy.new) (result ≡ Err SessionHalt.DrawFault) }
{
    let mut bytes = match vec![in alloc; 0; count] {
        Ok(bytes) => bytes,
        Err(_) => return Err(SessionHalt::MemoryOut),
    };
    match entropy.draw(bytes.as_mut_slice()) {
        Ok(()) => Ok(bytes),
        Err(_) => Err(SessionHalt::DrawFault),
    }
}

//! Writing a text whole.
ghost use Rattle.std.specs.Prelude.{◌≡◌, OnErr, OnOk};
ghost use Rattle.kdb_base.specs.Causes.{HasCause};
ghost use Rattle.kdb_ports.specs.Parts.{SaidPart};
ghost use Rattle.kdb_ports.specs.Told.{after_told};

use crate::sinks::{Sink, WriteFailed};

/// Writes all of the bytes, or a front of them and then the write failed. A sink may take fewer bytes than
/// it is given; what is left is given to it again.
pub fn write_whole<K: Sink>(sink: &mut K, bytes: &[u8]) -> Result<(), WriteFailed>
    ensures ok { OnOk result (K.taken sink.new ≡ after_told (K.taken sink.old) bytes.now) }
    ensures err { OnErr result (SaidPart bytes.now (K.taken sink.old) (K.taken sink.new)) }
    ensures cause { HasCause (K.faults sink.old) (K.faults sink.new) result }
{
    let mut at = 0;
    while at < bytes.len() {
        at += sink.write(&bytes[at..])?;
    }
    Ok(())
}

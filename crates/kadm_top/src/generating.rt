//! A script made and run.

ghost use Rattle.std.specs.Prelude.{◌≡◌, false, Err, IfErr, IfOk, OnErr};
ghost use Rattle.kadm_top.specs.Statuses.{IsSayHalt};
ghost use Rattle.kdb_ports.specs.Parts.{SaidPart};
ghost use Rattle.kdb_ports.specs.Told.{after_told};
ghost use Rattle.made_scripts.specs.Runs.{told_of};
ghost use Rattle.session_base.specs.Halts.{Counts};

use crate::accounting::say_made;
use kdb_ports::Sink;
use made_scripts::{Script, run_script};
use session_base::SessionHalt;
use std::alloc::Global;

/// Makes a script, runs it over a database of its own in memory, and writes what is told of it. The text is made first.
pub(crate) fn generate<K: Sink>(
    alloc: Global,
    script: Script,
    sink: &mut K,
) -> Result<bool, SessionHalt>
    ensures ok { IfOk result
        (λ refused. (refused ≡ false) × (K.taken sink.new ≡ after_told (K.taken sink.old) (told_of script))) }
    ensures err { OnErr result (SaidPart (told_of script) (K.taken sink.old) (K.taken sink.new)) }
    ensures memory { result ≡ Err SessionHalt.MemoryOut → sink.new ≡ sink.old }
    ensures halt { IfErr result IsSayHalt }
    ensures writes { Counts (K.faults sink.old) (K.faults sink.new) (result ≡ Err SessionHalt.WriteFault) }
{
    match run_script(alloc, script) {
        Ok(text) => match say_made(sink, text.as_slice()) {
            Ok(()) => Ok(false),
            Err(halt) => Err(halt),
        },
        Err(_) => Err(SessionHalt::MemoryOut),
    }
}

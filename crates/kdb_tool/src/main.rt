//! `kdb_tool`: the principal database of the folder that it is started in.
#![tactic(auto)]

use kadm_top::{run_local, say_text, text_alone};
use kdb_base::Status;
use kdb_disk::Folder;
use kdb_ports::{ReaderSource, SeededEntropy, SystemClock, WriterSink};
use std::alloc::Global;
use std::io::ErrorKind;
use std::process::ExitCode;
use std::{env, io};

/// The command line without the program's name.
fn read_words(rt: &HostRuntime, alloc: Global) -> io::Result<Vec<Vec<u8>>> {
    let mut words = Vec::new(alloc);
    for word in env::args(rt)?.skip(1) {
        words.push(word.into_bytes())?;
    }
    Ok(words)
}

fn main(rt: HostRuntime) -> ExitCode {
    let alloc = rt.alloc();
    // Words that are not UTF-8 are wrong words, as none at all are.
    let words = match read_words(&rt, alloc) {
        Ok(words) => words,
        Err(fault) if fault.kind() == ErrorKind::OutOfMemory => {
            return ExitCode::from(Status::MemoryOut.code());
        }
        Err(_) => Vec::new(alloc),
    };
    let mut sink = WriterSink::new(rt.stdout());
    if let Some(text) = text_alone(&words) {
        return ExitCode::from(say_text(&mut sink, text).code());
    }
    let mut source = ReaderSource::new(rt.stdin());
    let mut disk = Folder::new(&rt, alloc, ".");
    let mut clock = SystemClock::new(&rt);
    let mut entropy = SeededEntropy::new(&rt);
    let status = run_local(
        alloc,
        &words,
        &mut source,
        &mut sink,
        &mut disk,
        &mut clock,
        &mut entropy,
    );
    ExitCode::from(status.code())
}

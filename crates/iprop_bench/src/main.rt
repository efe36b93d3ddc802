//! Measures a replica that loads a dump in one round, over a connection in memory and a folder of the disk.
#![tactic(auto)]

mod frames;

use anyhow::Result;
use frames::answer_with;
use kdb_base::{Blob, Fails, MemoryOut, Point, Status, Time};
use kdb_disk::{Disk, Folder};
use kdb_ports::{Link, MemoryLink, Sink, WriterSink};
use kprop_runs::run_replica;
use std::alloc::Global;
use std::collections::VecDeque;
use std::process::ExitCode;
use std::time::{CpuClock, Instant};
use std::{env, fs};

const USAGE: &str =
    "usage: iprop_bench DUMP FOLDER    loads the dump as a replica would, into the files of an empty \
folder, and prints what that took";

/// A link whose one connection gives what a primary answers to a replica without a database.
fn link_of(alloc: Global, dump: Vec<u8>) -> Result<MemoryLink, MemoryOut> {
    let nothing = Point {
        sno: 0,
        time: Time::new(0, 0),
    };
    let mut connections = VecDeque::new(alloc);
    connections.push_back(answer_with(alloc, nothing, Blob::from_vec(dump))?)?;
    MemoryLink::new(alloc, connections, Fails::none(alloc))
}

/// The words of a run of one round: who asks, the rounds, and the size of the log.
fn words_of_run(alloc: Global) -> Result<Vec<Vec<u8>>, MemoryOut> {
    let mut words = Vec::new(alloc);
    for word in ["kiprop/replica@EXAMPLE.ORG", "1", "1000"] {
        words.push(word.as_bytes().to_vec(alloc)?)?;
    }
    Ok(words)
}

/// How many rows a dump has: it is a line for each, three before them and one behind.
fn rows_of(dump: &[u8]) -> usize {
    let lines = dump.iter().filter(|byte| **byte == b'\n').count();
    lines.saturating_sub(4)
}

/// The run that is measured. Of what it comes to nothing is said here.
fn load<L: Link, K: Sink, D: Disk>(
    alloc: Global,
    words: &[Vec<u8>],
    link: &mut L,
    sink: &mut K,
    disk: &mut D,
) -> Status {
    run_replica(alloc, words, link, sink, disk)
}

/// Loads the dump, whose lines the run prints, and gives its status and the seconds of the processor and of the clock.
fn measure(rt: &HostRuntime, dump: Vec<u8>, folder: &str) -> Result<(Status, f64, f64)> {
    let alloc = rt.alloc();
    let words = words_of_run(alloc)?;
    let mut link = link_of(alloc, dump)?;
    let mut sink = WriterSink::new(rt.stdout());
    let mut disk = Folder::new(rt, alloc, folder);
    let start = Instant::now(rt)?;
    let used = rt.process_cpu_time()?;
    let status = load(alloc, &words, &mut link, &mut sink, &mut disk);
    let used = rt.process_cpu_time()?.saturating_sub(used).as_secs_f64();
    let took = start.elapsed(rt)?.as_secs_f64();
    Ok((status, used, took))
}

/// Prints how the run ended, the rows and the times.
fn print_figures(
    rt: &HostRuntime,
    status: Status,
    rows: usize,
    used: f64,
    took: f64,
) -> Result<()> {
    println!(rt; "status {status:?}")?;
    println!(rt; "rows {rows}")?;
    println!(rt; "processor {used:.3} seconds")?;
    println!(rt; "clock {took:.3} seconds")?;
    Ok(())
}

fn main(rt: HostRuntime) -> Result<ExitCode> {
    let mut words = env::args(&rt)?;
    words.next();
    let (Some(dump), Some(folder)) = (words.next(), words.next()) else {
        println!(rt; "{USAGE}")?;
        return Ok(ExitCode::SUCCESS);
    };
    let dump = fs::read(&rt, dump.as_str())?;
    let rows = rows_of(&dump);
    let (status, used, took) = measure(&rt, dump, folder.as_str())?;
    print_figures(&rt, status, rows, used, took)?;
    Ok(ExitCode::from(status.code()))
}

//! The adapters over readers, writers and clocks, and what is answered to words that stand alone.

use crate::runs::words_of;
use kadm_top::alone::{USAGE, VERSION};
use kadm_top::{say_text, text_alone};
use kdb_base::Status;
use kdb_ports::{
    Clock, ReadFailed, ReaderSource, Sink, Source, SystemClock, WriteFailed, WriterSink,
};
use std::alloc::Global;
use std::io::{ErrorKind, Read, Write};
use std::process::Abort;
use std::test::Fail;
use std::time::Duration;
use std::{io, rt};

/// A system's clock that stands at a moment, or has none.
#[derive(Drop)]
pub(crate) struct Still {
    pub since_1970: Option<Duration>,
}

impl rt::Clock for Still {
    fn monotonic(&self) -> io::Result<Duration> {
        Ok(Duration::ZERO)
    }

    fn since_1970(&self) -> io::Result<Duration> {
        match self.since_1970 {
            Some(passed) => Ok(passed),
            None => Err(io::Error::from(ErrorKind::Other)),
        }
    }
}

/// Seconds and nanoseconds since 1970, and the seconds and microseconds of the moment.
const MOMENTS: [(u64, u32, u32, u32); 5] = [
    (1_700_000_000, 0, 1_700_000_000, 0),
    (1_700_000_000, 123_456_789, 1_700_000_000, 123_456),
    (0, 1_999, 0, 1),
    (4_294_967_295, 999_999_999, 4_294_967_295, 999_999),
    (4_294_967_296, 5_000, 4_294_967_295, 999_999),
];

#[test]
fn the_clock_of_the_system(rt: HostRuntime) -> Result<(), Fail> {
    for (secs, nanos, moment, micros) in MOMENTS {
        let since_1970 = Some(Duration::from_secs(secs).saturating_add(Duration::from_nanos(
            u64::from(nanos),
        )));
        let mut clock = SystemClock::new(Still { since_1970 });
        let now = clock.now();
        assert_eq!(rt; (now.secs(), now.usecs()), (moment, micros));
    }
    let mut clock = SystemClock::new(Still { since_1970: None });
    let now = clock.now();
    assert_eq!(rt; (now.secs(), now.usecs()), (0, 0));
    Ok(())
}

/// Is interrupted so often before each read and write, and then takes and gives three bytes at most.
#[derive(Drop)]
struct Slow {
    interrupts: u32,
    left: u32,
    bytes: Vec<u8>,
}

impl Slow {
    fn new(interrupts: u32, bytes: Vec<u8>) -> Slow {
        Slow {
            interrupts,
            left: interrupts,
            bytes,
        }
    }

    fn pass(&mut self) -> io::Result<()> {
        if self.left > 0 {
            self.left -= 1;
            return Err(io::Error::from(ErrorKind::Interrupted));
        }
        self.left = self.interrupts;
        Ok(())
    }
}

impl Read for Slow {
    fn read(&mut self, buf: &mut [u8]) -> io::Result<usize> {
        self.pass()?;
        if buf.is_empty() || self.bytes.is_empty() {
            return Ok(0);
        }
        buf[0] = self.bytes.remove(0);
        Ok(1)
    }
}

impl Write for Slow {
    fn write(&mut self, buf: &[u8]) -> io::Result<usize> {
        self.pass()?;
        if buf.len() < 3 {
            self.bytes.extend_from_slice(buf)?;
            return Ok(buf.len());
        }
        self.bytes.extend_from_slice(&buf[..3])?;
        Ok(3)
    }

    fn flush(&mut self) -> io::Result<()> {
        self.pass()
    }
}

#[test]
fn a_reader_is_given_on(rt: HostRuntime) -> Result<(), Fail> {
    let alloc = rt.alloc();
    let mut source = ReaderSource::new(b"abcde".as_slice());
    let mut into = [0; 4];
    assert_eq!(rt; source.read(&mut into), Ok(4));
    assert_eq!(rt; into.as_slice(), b"abcd".as_slice());
    assert_eq!(rt; source.read(&mut into), Ok(1));
    assert_eq!(rt; into.as_slice(), b"ebcd".as_slice());
    assert_eq!(rt; source.read(&mut into), Ok(0));
    let mut slow = ReaderSource::new(Slow::new(7, b"xy".as_slice().to_vec(alloc)?));
    assert_eq!(rt; slow.read(&mut into), Ok(1));
    assert_eq!(rt; slow.read(&mut into), Ok(1));
    assert_eq!(rt; into.as_slice(), b"ybcd".as_slice());
    let mut stuck = ReaderSource::new(Slow::new(u32::MAX, Vec::new(alloc)));
    assert_eq!(rt; stuck.read(&mut into), Err(ReadFailed));
    Ok(())
}

#[test]
fn a_writer_gets_what_is_written(rt: HostRuntime) -> Result<(), Fail> {
    let alloc = rt.alloc();
    let mut sink = WriterSink::new(Vec::new(alloc));
    assert_eq!(rt; sink.write(b"abcd"), Ok(4));
    assert_eq!(rt; sink.write(b"ef"), Ok(2));
    assert_eq!(rt; sink.into_writer().as_slice(), b"abcdef".as_slice());
    let mut slow = WriterSink::new(Slow::new(7, Vec::new(alloc)));
    assert_eq!(rt; slow.write(b"abcd"), Ok(3));
    assert_eq!(rt; slow.write(b"d"), Ok(1));
    assert_eq!(rt; slow.into_writer().bytes.as_slice(), b"abcd".as_slice());
    let mut stuck = WriterSink::new(Slow::new(u32::MAX, Vec::new(alloc)));
    assert_eq!(rt; stuck.write(b"abcd"), Err(WriteFailed));
    // A writer that takes nothing.
    let mut full = WriterSink::new(&mut [] as &mut [u8]);
    assert_eq!(rt; full.write(b"abcd"), Err(WriteFailed));
    Ok(())
}

/// Whether there is a text for words that stand alone.
fn has_text(alloc: Global, line: &str) -> Result<bool, Fail> {
    let words = words_of(alloc, line)?;
    Ok(text_alone(&words).is_some())
}

fn check_said(rt: &impl Abort, alloc: Global, line: &str, text: &[u8]) -> Result<(), Fail> {
    let words = words_of(alloc, line)?;
    let found = text_alone(&words).unwrap_or(b"");
    let mut sink = WriterSink::new(Slow::new(0, Vec::new(alloc)));
    assert_eq!(rt; say_text(&mut sink, found), Status::Done);
    assert_eq!(rt; sink.into_writer().bytes.as_slice(), text);
    Ok(())
}

#[test]
fn words_that_stand_alone(rt: HostRuntime) -> Result<(), Fail> {
    for line in [
        "",
        "admin",
        "--help --",
        "-- --help",
        "--helpful",
        "admin --version",
    ] {
        assert!(rt; !has_text(rt.alloc(), line)?);
    }
    for (line, text) in [("--help", USAGE), ("--version", VERSION)] {
        check_said(&rt, rt.alloc(), line, text)?;
    }
    let mut full = WriterSink::new(&mut [] as &mut [u8]);
    assert_eq!(rt; say_text(&mut full, VERSION), Status::WriteFault);
    Ok(())
}

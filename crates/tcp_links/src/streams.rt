//! Reads and writes on one connection.
ghost use Rattle.std.specs.Prelude.{◌≡◌, ◌<◌, ◌≤◌, length, take, IfOk, OnErr, OnOk};
ghost use Rattle.std.specs.Io.KnownBytes.{Appends, Keeps, ReadConsumes};
ghost use Rattle.kdb_ports.specs.Adapters.{AppendsFront};

use kdb_ports::LinkFailed;
use std::io::{ErrorKind, Read, Write};

/// How often a read or a write is tried that a signal interrupts.
const TRIES: u32 = 1000;

/// Reads once, and again where a signal interrupted that, 999 times at most.
pub(crate) fn read_some<S: Read>(stream: &mut S, into: &mut [u8]) -> Result<usize, LinkFailed>
    ensures bound { IfOk result (λ n. n ≤ length into.new) }
    ensures gave { ReadConsumes (S.remaining stream.old) (S.remaining stream.new) result into.new }
{
    for _ in 0..TRIES {
        match stream.read(into) {
            Ok(count) => return Ok(count),
            Err(error) => {
                if error.kind() != ErrorKind::Interrupted {
                    return Err(LinkFailed);
                }
            }
        }
    }
    Err(LinkFailed)
}

/// Writes a front of the bytes once, and again where a signal interrupted that, 999 times at most.
fn write_front<S: Write>(stream: &mut S, bytes: &[u8]) -> Result<usize, LinkFailed>
    ensures bound { IfOk result (λ n. n ≤ length bytes.now) }
    ensures got { IfOk result (λ n. Appends (S.contents stream.old) (S.contents stream.new) (take n bytes.now)) }
    ensures kept { OnErr result (Keeps (S.contents stream.old) (S.contents stream.new)) }
{
    for _ in 0..TRIES {
        match stream.write(bytes) {
            Ok(count) => return Ok(count),
            Err(error) => {
                if error.kind() != ErrorKind::Interrupted {
                    return Err(LinkFailed);
                }
            }
        }
    }
    Err(LinkFailed)
}

/// Writes a front of the bytes, at least one byte. A stream that takes nothing has failed.
fn write_some<S: Write>(stream: &mut S, bytes: &[u8]) -> Result<usize, LinkFailed>
    ensures least { IfOk result (λ n. 0 < n) }
    ensures bound { IfOk result (λ n. n ≤ length bytes.now) }
    ensures got { IfOk result (λ n. Appends (S.contents stream.old) (S.contents stream.new) (take n bytes.now)) }
    ensures part { OnErr result (AppendsFront (S.contents stream.old) (S.contents stream.new) bytes.now) }
{
    let count = write_front(stream, bytes)?;
    if count == 0 {
        return Err(LinkFailed);
    }
    Ok(count)
}

/// Writes all of the bytes. After an error a front of them was written, or nothing.
pub(crate) fn write_whole<S: Write>(stream: &mut S, bytes: &[u8]) -> Result<(), LinkFailed>
    ensures got { OnOk result (Appends (S.contents stream.old) (S.contents stream.new) bytes.now) }
    ensures part { OnErr result (AppendsFront (S.contents stream.old) (S.contents stream.new) bytes.now) }
{
    let mut at = 0;
    while at < bytes.len() {
        at += write_some(stream, &bytes[at..])?;
    }
    Ok(())
}

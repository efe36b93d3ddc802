//! Random bytes by a published key stream and by the system, and a text that is written whole.

use kdb_base::Fails;
use kdb_ports::{
    ChaChaEntropy, DrawFailed, Entropy, MemorySink, SeededEntropy, WriteFailed, write_whole,
};
use std::cell::Cell;
use std::io;
use std::random::RandomSource;
use std::test::Fail;

/// The key stream of RFC 8439, appendix A.1, test vector 1.
const ZERO_SEED: [u8; 64] = [
    0x76, 0xb8, 0xe0, 0xad, 0xa0, 0xf1, 0x3d, 0x90, 0x40, 0x5d, 0x6a, 0xe5, 0x53, 0x86, 0xbd, 0x28,
    0xbd, 0xd2, 0x19, 0xb8, 0xa0, 0x8d, 0xed, 0x1a, 0xa8, 0x36, 0xef, 0xcc, 0x8b, 0x77, 0x0d, 0xc7,
    0xda, 0x41, 0x59, 0x7c, 0x51, 0x57, 0x48, 0x8d, 0x77, 0x24, 0xe0, 0x3f, 0xb8, 0xd8, 0x4a, 0x37,
    0x6a, 0x43, 0xb8, 0xf4, 0x15, 0x18, 0xa1, 0x1c, 0xc3, 0x87, 0xb6, 0x69, 0xb2, 0xee, 0x65, 0x86,
];

#[test]
fn the_published_stream(rt: HostRuntime) -> Result<(), Fail> {
    let mut entropy = ChaChaEntropy::new(&[0; 32], Fails::none(rt.alloc()));
    let mut bytes = [0; 64];
    entropy.draw(&mut bytes)?;
    assert_eq!(rt; bytes, ZERO_SEED);
    Ok(())
}

#[test]
fn a_draw_in_pieces(rt: HostRuntime) -> Result<(), Fail> {
    let mut entropy = ChaChaEntropy::new(&[0; 32], Fails::none(rt.alloc()));
    let mut first = [0; 3];
    entropy.draw(&mut first)?;
    let mut second = [0; 5];
    entropy.draw(&mut second)?;
    let mut last = [0; 24];
    entropy.draw(&mut last)?;
    assert_eq!(rt; first.as_slice(), &ZERO_SEED[..3]);
    assert_eq!(rt; second.as_slice(), &ZERO_SEED[3..8]);
    assert_eq!(rt; last.as_slice(), &ZERO_SEED[8..32]);
    Ok(())
}

#[test]
fn a_draw_that_is_to_fail(rt: HostRuntime) -> Result<(), Fail> {
    let fails = Fails::from_vec(vec![in rt.alloc(); 1u64]?);
    let mut entropy = ChaChaEntropy::new(&[0; 32], fails);
    entropy.draw(&mut [0; 3])?;
    let mut bytes = [0xaa; 5];
    assert_eq!(rt; entropy.draw(&mut bytes), Err(DrawFailed));
    assert_eq!(rt; bytes, [0xaa; 5]);
    entropy.draw(&mut bytes)?;
    assert_eq!(rt; bytes.as_slice(), &ZERO_SEED[3..8]);
    Ok(())
}

/// Gives zeros from its second call on.
#[derive(Drop)]
struct LateZeros {
    asked: Cell<bool>,
}

impl RandomSource for LateZeros {
    fn fill_bytes(&self, buf: &mut [u8]) -> io::Result<()> {
        if !self.asked.replace(true) {
            return Err(io::Error::from(io::ErrorKind::Other));
        }
        buf.fill(0);
        Ok(())
    }
}

#[test]
fn a_seed_that_comes_late(rt: HostRuntime) -> Result<(), Fail> {
    let mut entropy = SeededEntropy::new(LateZeros {
        asked: Cell::new(false),
    });
    let mut bytes = [0; 64];
    assert_eq!(rt; entropy.draw(&mut bytes), Err(DrawFailed));
    entropy.draw(&mut bytes)?;
    assert_eq!(rt; bytes, ZERO_SEED);
    Ok(())
}

#[test]
fn seeds_of_the_system(rt: HostRuntime) -> Result<(), Fail> {
    let mut first = [0; 32];
    SeededEntropy::new(&rt).draw(&mut first)?;
    let mut second = [0; 32];
    SeededEntropy::new(&rt).draw(&mut second)?;
    assert_ne!(rt; first, second);
    Ok(())
}

#[test]
fn a_text_is_written_whole(rt: HostRuntime) -> Result<(), Fail> {
    let fails = Fails::from_vec(vec![in rt.alloc(); 1u64]?);
    let mut sink = MemorySink::new(rt.alloc(), fails)?;
    write_whole(&mut sink, b"abc")?;
    assert_eq!(rt; sink.written(), b"abc".as_slice());
    assert_eq!(rt; write_whole(&mut sink, b"d"), Err(WriteFailed));
    write_whole(&mut sink, b"")?;
    assert_eq!(rt; sink.written(), b"abc".as_slice());
    Ok(())
}

//! The words of the binary formats, byte for byte.

use kdb_base::{Blob, Etype, Point, Time};
use kdb_format::etypes::{push_etype, push_etype_le, read_etype, read_etype_le};
use kdb_format::lists::{read_items, read_list_u16, read_list_u32, write_list_u16, write_list_u32};
use kdb_format::moments::{push_point, read_point};
use kdb_format::placing::{put_u8, put_u16, put_u32, put_u64};
use kdb_format::writing::{push_u16, push_u16_le, push_u32, push_u32_le, push_u64, push_zeros};
use kdb_format::{Counted, FormatFault, Reader, read_inside, read_next, read_padded, read_whole};
use std::alloc::Global;
use std::process::Abort;
use std::test::*;

// 1700000000 is 6553f100 in hexadecimal, and 999999 is f423f.
const POINT: [u8; 12] = [0, 0, 0, 5, 0x65, 0x53, 0xf1, 0, 0, 0x0f, 0x42, 0x3f];

// Two counted texts, "ab" and one of no bytes, behind their number in two bytes.
const LIST: [u8; 8] = [0, 2, 0, 2, 97, 98, 0, 0];

#[test]
fn numbers_are_read_in_both_orders(rt: HostRuntime) {
    assert_eq!(rt; Reader::new(b"\x07").u8().ok(), Some(7));
    assert_eq!(rt; Reader::new(b"\x12\x34").u16().ok(), Some(4660));
    assert_eq!(rt; Reader::new(b"\x65\x53\xf1\0").u32().ok(), Some(1700000000));
    assert_eq!(rt;
        Reader::new(b"\0\0\0\x01\0\0\0\x02").u64().ok(),
        Some(4294967298)
    );
    assert_eq!(rt; Reader::new(b"\x34\x12").u16_le().ok(), Some(4660));
    assert_eq!(rt;
        Reader::new(b"\0\xf1\x53\x65").u32_le().ok(),
        Some(1700000000)
    );
    assert_eq!(rt; Reader::new(b"\x65\x53\xf1").u32().ok(), None);
}

#[test]
fn what_is_malformed(rt: HostRuntime) {
    let wrong: [&[u8]; 6] = [b"", b"\0", b"\0\x02a", b"\0\x02abc", b"\0\0\0", b"\x01\0ab"];
    for bytes in &wrong {
        assert_eq!(rt;
            read_whole::<Counted>(rt.alloc(), bytes).err(),
            Some(FormatFault::Malformed)
        );
    }
    assert!(rt; Reader::new(b"KDBB").literal(b"KDBA").is_err());
    assert!(rt; Reader::new(b"\0\x01").zeros(2).is_err());
}

#[test]
fn encryption_types_stand_in_both_orders(rt: HostRuntime) -> Result<(), Fail> {
    let mut out = Vec::new(rt.alloc());
    push_etype(&mut out, Etype::Aes256)?;
    push_etype_le(&mut out, Etype::Aes256Sha2)?;
    assert_eq!(rt; out.as_slice(), b"\0\x12\x14\0".as_slice());
    assert_eq!(rt;
        read_etype(&mut Reader::new(b"\0\x13")).ok(),
        Some(Etype::Aes128Sha2)
    );
    assert_eq!(rt;
        read_etype_le(&mut Reader::new(b"\x11\0")).ok(),
        Some(Etype::Aes128)
    );
    assert!(rt; read_etype(&mut Reader::new(b"\0\x10")).is_err());
    assert!(rt; read_etype_le(&mut Reader::new(b"\0\x13")).is_err());
    assert!(rt; read_etype(&mut Reader::new(b"\x12")).is_err());
    Ok(())
}

fn push_numbers(out: &mut Vec<u8>) -> Result<(), Fail> {
    push_u16(out, 4660)?;
    push_u16_le(out, 4660)?;
    push_u32(out, 1700000000)?;
    push_u32_le(out, 1700000000)?;
    push_u64(out, 4294967298)?;
    push_zeros(out, 2)?;
    Ok(())
}

#[test]
fn numbers_are_written(rt: HostRuntime) -> Result<(), Fail> {
    let mut out = Vec::new(rt.alloc());
    push_numbers(&mut out)?;
    assert_eq!(rt;
        out.as_slice(),
        b"\x12\x34\x34\x12\x65\x53\xf1\0\0\xf1\x53\x65\0\0\0\x01\0\0\0\x02\0\0".as_slice()
    );
    Ok(())
}

#[test]
fn numbers_are_put(rt: HostRuntime) {
    let mut slot = [0; 16];
    put_u8(&mut slot, 1, 7);
    put_u16(&mut slot, 2, 4660);
    put_u32(&mut slot, 4, 1700000000);
    put_u64(&mut slot, 8, 4294967298);
    assert_eq!(rt;
        slot.as_slice(),
        b"\0\x07\x12\x34\x65\x53\xf1\0\0\0\0\x01\0\0\0\x02".as_slice()
    );
}

#[test]
fn points(rt: HostRuntime) -> Result<(), Fail> {
    let point = read_point(&mut Reader::new(&POINT))?;
    assert_eq!(rt;
        point,
        Point {
            sno: 5,
            time: Time::new(1700000000, 999999)
        }
    );
    let mut out = Vec::new(rt.alloc());
    push_point(&mut out, point)?;
    assert_eq!(rt; out.as_slice(), POINT.as_slice());
    Ok(())
}

#[test]
fn lists_are_read(rt: HostRuntime) -> Result<(), Fail> {
    let mut reader = Reader::new(&LIST);
    let texts = read_list_u16::<Counted>(rt.alloc(), &mut reader)?;
    assert!(rt; reader.is_empty());
    assert_eq!(rt; texts.len(), 2);
    assert_eq!(rt;
        read_items::<Counted>(rt.alloc(), &mut Reader::new(&LIST[2..]), 1)?.len(),
        1
    );
    assert_eq!(rt;
        read_list_u32::<Counted>(rt.alloc(), &mut Reader::new(b"\0\0\0\x01\0\0"))?.len(),
        1
    );
    Ok(())
}

#[test]
fn lists_are_written(rt: HostRuntime) -> Result<(), Fail> {
    let texts = [Blob::from_bytes(rt.alloc(), b"ab")?];
    let mut out = Vec::new(rt.alloc());
    write_list_u16::<Counted>(&mut out, &texts)?;
    write_list_u32::<Counted>(&mut out, &texts)?;
    assert_eq!(rt;
        out.as_slice(),
        b"\0\x01\0\x02ab\0\0\0\x01\0\x02ab".as_slice()
    );
    Ok(())
}

fn check_next(rt: &impl Abort, alloc: Global) -> Result<(), Fail> {
    let text = read_next::<Counted>(alloc, &mut Reader::new(&LIST[2..]))?;
    assert_eq!(rt; text.as_slice(), b"ab".as_slice());
    Ok(())
}

fn check_inside(rt: &impl Abort, alloc: Global) -> Result<(), Fail> {
    let text = read_inside::<Counted>(alloc, &mut Reader::new(&LIST[2..]), 4)?;
    assert_eq!(rt; text.as_slice(), b"ab".as_slice());
    Ok(())
}

fn check_padded(rt: &impl Abort, alloc: Global) -> Result<(), Fail> {
    let text = read_padded::<Counted>(alloc, &mut Reader::new(&LIST[2..]), 6)?;
    assert_eq!(rt; text.as_slice(), b"ab".as_slice());
    Ok(())
}

fn check_whole(rt: &impl Abort, alloc: Global) -> Result<(), Fail> {
    let bytes = &LIST[2..];
    let text = read_whole::<Counted>(alloc, &bytes[..4])?;
    assert_eq!(rt; text.as_slice(), b"ab".as_slice());
    Ok(())
}

#[test]
fn one_text(rt: HostRuntime) -> Result<(), Fail> {
    check_next(&rt, rt.alloc())?;
    check_inside(&rt, rt.alloc())?;
    check_padded(&rt, rt.alloc())?;
    check_whole(&rt, rt.alloc())
}

use kdb_base::{Blob, Etype, Extract, ExtractList, PlainKey};
use keytab_out::{
    KeytabFault, KeytabList, Which, add_entries, has_entry, read_keytab, remove_entries,
    write_keytab,
};
use princ_name::{Name, parse_name};
use std::alloc::Global;
use std::process::Abort;
use std::test::*;

const KEY: &[u8] = b"0123456789abcdef";

const LONG_KEY: &[u8] = b"0123456789abcdefghijklmnopqrstuv";

fn named(alloc: Global, word: &[u8]) -> Result<Name, Fail> {
    Ok(parse_name(alloc, word, b"EXAMPLE.ORG")?)
}

/// A key of each of two types, of this version.
fn two_keys(alloc: Global, kvno: u16) -> Result<ExtractList, Fail> {
    let long = PlainKey::from_bytes(Etype::Aes256, LONG_KEY);
    let short = PlainKey::from_bytes(Etype::Aes128, KEY);
    Ok(ExtractList::from_vec(vec![in alloc;
        Extract { kvno, key: long },
        Extract { kvno, key: short },
    ]?))
}

/// Adds two keys of alice.
fn add_keys(alloc: Global, list: &mut KeytabList, kvno: u16) -> Result<(), Fail> {
    let name = named(alloc, b"alice")?;
    let keys = two_keys(alloc, kvno)?;
    add_entries(alloc, list, &name, 1_700_000_000, &keys)?;
    Ok(())
}

/// What is written with two keys of alice more.
fn added(alloc: Global, before: &[u8], kvno: u16) -> Result<Blob, Fail> {
    let mut list = read_keytab(alloc, before)?;
    add_keys(alloc, &mut list, kvno)?;
    Ok(write_keytab(alloc, &list)?)
}

#[test]
fn keys_are_added(rt: HostRuntime) -> Result<(), Fail> {
    let first = added(rt.alloc(), b"", 2)?;
    assert_eq!(rt; first.len(), 136);
    let start =
        b"\x05\x02\0\0\0\x47\0\x01\0\x0bEXAMPLE.ORG\0\x05alice\0\0\0\x01\x65\x53\xf1\0\x02\0\x12\0\x20";
    assert!(rt; first.as_slice().starts_with(start));
    assert!(rt;
        first
            .as_slice()
            .ends_with(b"\0\x11\0\x100123456789abcdef\0\0\0\x02")
    );
    Ok(())
}

#[test]
fn keys_are_added_behind_others(rt: HostRuntime) -> Result<(), Fail> {
    let first = added(rt.alloc(), b"", 2)?;
    let second = added(rt.alloc(), first.as_slice(), 300)?;
    assert_eq!(rt; second.len(), 270);
    assert!(rt; second.as_slice().starts_with(first.as_slice()));
    assert!(rt; second.as_slice().ends_with(b"\0\0\x01\x2c"));
    Ok(())
}

/// A keytab with four keys of alice, of the versions 2 and 3.
fn four_keys(alloc: Global) -> Result<Blob, Fail> {
    let first = added(alloc, b"", 2)?;
    added(alloc, first.as_slice(), 3)
}

/// How many entries are removed, and how many bytes are then written.
fn removing_of(
    alloc: Global,
    file: &[u8],
    name: &Name,
    which: Which,
) -> Result<(u32, usize), Fail> {
    let mut list = read_keytab(alloc, file)?;
    if list.len() > 4 {
        return Ok((0, 0));
    }
    let count = remove_entries(&mut list, name, which);
    Ok((count, write_keytab(alloc, &list)?.len()))
}

/// The same of the name that a word spells.
fn removing(alloc: Global, file: &[u8], word: &[u8], which: Which) -> Result<(u32, usize), Fail> {
    let name = named(alloc, word)?;
    removing_of(alloc, file, &name, which)
}

#[test]
fn entries_are_removed(rt: HostRuntime) -> Result<(), Fail> {
    let file = four_keys(rt.alloc())?;
    let rows: [(&[u8], Which, (u32, usize)); 6] = [
        (b"alice", Which::Older, (2, 136)),
        (b"alice", Which::One(3), (2, 136)),
        (b"alice", Which::One(9), (0, 270)),
        (b"alice", Which::All, (4, 2)),
        (b"alice@EXAMPLE.COM", Which::All, (0, 270)),
        (b"alic/e", Which::All, (0, 270)),
    ];
    for (word, which, wanted) in &rows {
        assert_eq!(rt;
            removing(rt.alloc(), file.as_slice(), word, *which)?,
            *wanted
        );
    }
    Ok(())
}

/// Whether a keytab has an entry of this name.
fn is_there(alloc: Global, file: &[u8], word: &[u8]) -> Result<bool, Fail> {
    let name = named(alloc, word)?;
    let list = read_keytab(alloc, file)?;
    Ok(has_entry(&list, &name))
}

#[test]
fn entries_are_found(rt: HostRuntime) -> Result<(), Fail> {
    let file = four_keys(rt.alloc())?;
    assert!(rt; is_there(rt.alloc(), file.as_slice(), b"alice")?);
    assert!(rt; !is_there(rt.alloc(), file.as_slice(), b"bob")?);
    Ok(())
}

#[test]
fn entries_are_counted(rt: HostRuntime) -> Result<(), Fail> {
    let file = four_keys(rt.alloc())?;
    let list = read_keytab(rt.alloc(), file.as_slice())?;
    assert_eq!(rt; (list.len(), list.is_empty()), (4, false));
    Ok(())
}

#[test]
fn files_are_judged(rt: HostRuntime) {
    let rows: [(&[u8], Option<u64>); 6] = [
        (b"", None),
        (b"\x05\x02", None),
        (b"\x05\x03", Some(0)),
        (b"\x05", Some(0)),
        // A hole, the mark of the end, and what is ignored behind it.
        (b"\x05\x02\xff\xff\xff\xfdabc\0\0\0\0rubbish", None),
        (b"\x05\x02\xff\xff\xff\xfdabc\0\0\0\x02ab", Some(9)),
    ];
    for (file, place) in &rows {
        let read = read_keytab(rt.alloc(), file);
        let wanted = match place {
            Some(place) => Some(KeytabFault::BadKeytab { place: *place }),
            None => None,
        };
        assert_eq!(rt; read.err(), wanted);
    }
}

#[test]
fn what_is_passed_over_is_not_written(rt: HostRuntime) -> Result<(), Fail> {
    let list = read_keytab(rt.alloc(), b"\x05\x02\xff\xff\xff\xfdabc\0\0\0\0rubbish")?;
    assert_eq!(rt;
        write_keytab(rt.alloc(), &list)?.as_slice(),
        b"\x05\x02".as_slice()
    );
    Ok(())
}

/// A type of keys, and how long they are.
const LENGTHS: [(u8, usize); 4] = [(17, 16), (18, 32), (19, 16), (20, 32)];

/// A keytab of alice@R with a key of this type and of these bytes.
fn keytab_of(alloc: Global, etype: u8, key: &[u8]) -> Result<Vec<u8>, Fail> {
    let length = u8::try_from(key.len()).ok().ok_or("a long key")?;
    let mut out = b"\x05\x02\0\0\0".to_vec(alloc)?;
    out.push(length.wrapping_add(25))?;
    out.extend_from_slice(b"\0\x01\0\x01R\0\x05alice\0\0\0\x01\x65\x53\xf1\0\x02")?;
    out.extend_from_slice(&[0, etype, 0, length])?;
    out.extend_from_slice(key)?;
    Ok(out)
}

/// A key of these bytes is read where it is as long as is wanted.
fn check_length(
    rt: &impl Abort,
    alloc: Global,
    etype: u8,
    wanted: usize,
    key: &[u8],
) -> Result<(), Fail> {
    let length = key.len();
    let file = keytab_of(alloc, etype, key)?;
    let fault = if length == wanted {
        None
    } else {
        Some(KeytabFault::BadKeytab { place: 2 })
    };
    let read = read_keytab(alloc, &file);
    assert_eq!(rt; read.err(), fault, "type {etype}, {length} bytes");
    Ok(())
}

#[test]
fn keys_have_the_lengths_of_their_types(rt: HostRuntime) -> Result<(), Fail> {
    for (etype, wanted) in LENGTHS.iter() {
        for length in 0..34usize {
            check_length(&rt, rt.alloc(), *etype, *wanted, &[7; 34][..length])?;
        }
    }
    Ok(())
}

#[test]
fn a_key_of_another_type_has_any_length(rt: HostRuntime) -> Result<(), Fail> {
    let file = keytab_of(rt.alloc(), 16, b"a")?;
    assert_eq!(rt; read_keytab(rt.alloc(), &file)?.len(), 1);
    Ok(())
}

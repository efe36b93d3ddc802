//! The options in front of words: how far they go, what they say, and which exclude one another.

use kadm_options::{
    Given, Opening, OptionName, Setting, ValueKind, are_single, find_policy, find_seconds,
    find_word, first_bad, flags_among, is_chosen, is_dashes, is_given, is_signed, read_options,
    read_within,
};
use kadm_values::FlagChange;
use kdb_base::{Blob, Field, MemoryOut};
use std::alloc::Global;
use std::process::Abort;
use std::test::*;

const KNOWN: [Opening; 10] = [
    Opening::Alone(OptionName::NoKey),
    Opening::Alone(OptionName::RandKey),
    Opening::Value(Setting {
        option: OptionName::Password,
        kind: ValueKind::Word,
        field: Field::Value,
    }),
    Opening::Value(Setting {
        option: OptionName::Enctypes,
        kind: ValueKind::EtypeList,
        field: Field::Enctypes,
    }),
    Opening::Value(Setting {
        option: OptionName::History,
        kind: ValueKind::Number(1, 16),
        field: Field::History,
    }),
    Opening::Alone(OptionName::ClearPolicy),
    Opening::Value(Setting {
        option: OptionName::Policy,
        kind: ValueKind::PolicyName,
        field: Field::Policy,
    }),
    Opening::Value(Setting {
        option: OptionName::Expire,
        kind: ValueKind::Time,
        field: Field::Expire,
    }),
    Opening::Value(Setting {
        option: OptionName::MasterPassword,
        kind: ValueKind::Word,
        field: Field::Value,
    }),
    Opening::Value(Setting {
        option: OptionName::UlogSize,
        kind: ValueKind::Number(2, 10000),
        field: Field::UlogSize,
    }),
];

fn words_of(alloc: Global, line: &[u8]) -> Result<Vec<Blob>, MemoryOut> {
    let mut words = Vec::new(alloc);
    for word in line.split(|byte| *byte == b' ') {
        words.push(Blob::from_bytes(alloc, word)?)?;
    }
    Ok(words)
}

/// Words, and how many are those of options; 99 where a word says none, or a value is missing.
const COUNTED: [(&[u8], usize); 9] = [
    (b"bob", 0),
    (b"-nokey bob", 1),
    (b"-nokey -- -x", 1),
    (b"-expire -- bob", 2),
    (b"-policy p +needchange -clearpolicy", 4),
    (b"-expire", 99),
    (b"-force", 99),
    (b"+nokey", 99),
    (b"-", 99),
];

/// How many words are those of options; 99 where none are told.
fn count_of(alloc: Global, flags: bool, words: &[Blob]) -> Result<usize, Fail> {
    match read_options(alloc, &KNOWN, flags, words)? {
        Some(found) => Ok(found.count),
        None => Ok(99),
    }
}

fn check_count(rt: &impl Abort, alloc: Global, line: &[u8], count: usize) -> Result<(), Fail> {
    let words = words_of(alloc, line)?;
    let found = count_of(alloc, true, &words)?;
    assert_eq!(rt; found, count, "{line:?}");
    Ok(())
}

/// Where no flags are known, a flag is no option.
fn check_flag(rt: &impl Abort, alloc: Global) -> Result<(), Fail> {
    let words = words_of(alloc, b"+needchange")?;
    let found = read_options(alloc, &KNOWN, false, &words)?;
    assert!(rt; found.is_none());
    Ok(())
}

#[test]
fn options_end(rt: HostRuntime) -> Result<(), Fail> {
    for (line, count) in COUNTED.iter() {
        check_count(&rt, rt.alloc(), line, *count)?;
    }
    check_flag(&rt, rt.alloc())?;
    assert!(rt; is_dashes(b"--") && !is_dashes(b"-"));
    assert!(rt; is_signed(b"-") && is_signed(b"+x") && !is_signed(b"x-") && !is_signed(b""));
    Ok(())
}

fn options_in(alloc: Global, words: &[Blob]) -> Result<Vec<Given>, MemoryOut> {
    match read_options(alloc, &KNOWN, true, words)? {
        Some(found) => Ok(found.options),
        None => Err(MemoryOut),
    }
}

fn options_of(alloc: Global, line: &[u8]) -> Result<Vec<Given>, MemoryOut> {
    let words = words_of(alloc, line)?;
    options_in(alloc, &words)
}

/// The name of the policy that is given.
fn check_policy(rt: &impl Abort, alloc: Global, options: &[Given]) -> Result<(), Fail> {
    let policy = find_policy(alloc, options)?.expect(rt, "a policy");
    assert!(rt; policy.map_or(false, |name| name.as_slice() == b"p.1".as_slice()));
    Ok(())
}

/// The flags that are given: two, the last of which is cleared.
fn check_flags(rt: &impl Abort, alloc: Global, options: &[Given]) -> Result<(), Fail> {
    let flags = flags_among(alloc, options)?;
    assert_eq!(rt; flags.len(), 2);
    assert_eq!(rt;
        flags[1],
        FlagChange {
            set: false,
            bit: 0x200
        }
    );
    Ok(())
}

/// What options say that may stand together.
fn check_single(rt: &impl Abort, alloc: Global, options: &[Given]) -> Result<(), Fail> {
    assert!(rt; are_single(options) && !is_chosen(OptionName::NoKey, options));
    assert!(rt; first_bad(alloc, options)?.is_none());
    assert_eq!(rt; find_seconds(OptionName::Expire, options), Some(0));
    assert_eq!(rt; find_seconds(OptionName::MaxLife, options), None);
    check_policy(rt, alloc, options)?;
    check_flags(rt, alloc, options)
}

/// Options that may not.
fn check_double(rt: &impl Abort, alloc: Global, options: &[Given]) -> Result<(), Fail> {
    assert!(rt; !are_single(options));
    assert!(rt; first_bad(alloc, options)? == Some(Field::Policy));
    Ok(())
}

#[test]
fn values(rt: HostRuntime) -> Result<(), Fail> {
    let single = options_of(
        rt.alloc(),
        b"+needchange -expire never -policy p.1 -needchange",
    )?;
    check_single(&rt, rt.alloc(), &single)?;
    let double = options_of(rt.alloc(), b"-clearpolicy -policy - -expire 1h")?;
    check_double(&rt, rt.alloc(), &double)
}

/// Words of options with what stands first among the bad ones; an empty word where all are good.
const JUDGED: [(&[u8], &str); 11] = [
    (b"-pw -e -e aes256-sha2,aes128-cts:normal -history 16", ""),
    (b"-e aes256-cts,aes256-sha1", "enctypes"),
    (b"-e aes256-cts,", "enctypes"),
    (b"-history 0", "history"),
    (b"-history 17 -e des", "history"),
    (b"-history 0000000001", ""),
    (b"-history 00000000001", "history"),
    (b"-randkey -e des -history 0", "enctypes"),
    (b"-pw \xff -history 1x", "history"),
    (b"-P -P -ulogsize 10000", ""),
    (b"-P x -pw y -ulogsize 1", "ulogsize"),
];

/// What stands first among the bad ones of these options.
fn check_judged(rt: &impl Abort, alloc: Global, line: &[u8], expected: &str) -> Result<(), Fail> {
    let options = options_of(alloc, line)?;
    let found = first_bad(alloc, &options)?.map_or("", |field| field.word());
    assert_eq!(rt; found, expected, "{line:?}");
    Ok(())
}

#[test]
fn kinds(rt: HostRuntime) -> Result<(), Fail> {
    for (line, expected) in JUDGED.iter() {
        check_judged(&rt, rt.alloc(), line, *expected)?;
    }
    let options = options_of(rt.alloc(), b"-pw -nokey -history 3")?;
    assert!(rt; find_word(OptionName::Password, &options) == Some(b"-nokey".as_slice()));
    assert!(rt; is_given(OptionName::Password, &options));
    assert!(rt; is_chosen(OptionName::NoKey, &options));
    assert!(rt; !is_given(OptionName::NoKey, &options));
    Ok(())
}

/// Words, the range of each, and the number that they spell in it.
const RANGED: [(u32, u32, &[u8], Option<u32>); 7] = [
    (1, 16, b"3", Some(3)),
    (0, 0, b"0", Some(0)),
    (2, 10_000, b"10001", None),
    (1, 4_294_967_295, b"0", None),
    (1, 4_294_967_295, b"4294967295", Some(4_294_967_295)),
    (1, 4_294_967_295, b"4294967296", None),
    (1, 4_294_967_295, b"-1", None),
];

#[test]
fn numbers(rt: HostRuntime) -> Result<(), Fail> {
    for (least, most, word, expected) in RANGED.iter() {
        assert_eq!(rt; read_within(*least, *most, word), *expected, "{word:?}");
    }
    Ok(())
}

/// Options of which no two may stand together.
const EXCLUDED: [&[u8]; 7] = [
    b"-pw x -randkey",
    b"-nokey -randkey",
    b"-pw x -nokey",
    b"-pw x -pw x",
    b"-e aes256-cts -e aes256-cts",
    b"-P x -P y",
    b"-ulogsize 2 -ulogsize 2",
];

#[test]
fn options_exclude_each_other(rt: HostRuntime) -> Result<(), Fail> {
    for line in EXCLUDED.iter() {
        let options = options_of(rt.alloc(), line)?;
        assert!(rt; !are_single(&options), "{line:?}");
    }
    Ok(())
}

use kdb_base::Blob;
use princ_name::{Hits, Kind, Name, NameFault, Pattern, parse_name, parse_own_name, print_name};
use std::alloc::{AllocError, Global};
use std::test::*;

const REALM: &[u8] = b"EXAMPLE.ORG";

fn told_name(alloc: Global, name: &Name) -> Result<Result<Blob, usize>, NameFault> {
    Ok(Ok(print_name(alloc, name)?))
}

/// The answer of a reader in short: the printed form, or the offset of the fault.
fn told(alloc: Global, answer: Result<Name, NameFault>) -> Result<Result<Blob, usize>, NameFault> {
    match answer {
        Ok(name) => told_name(alloc, &name),
        Err(NameFault::BadName { offset }) => Ok(Err(offset)),
        Err(NameFault::MemoryOut) => Err(NameFault::MemoryOut),
    }
}

/// The offset of its fault, where it has one.
fn fault_of(alloc: Global, answer: Result<Name, NameFault>) -> Result<Option<usize>, NameFault> {
    let answer = told(alloc, answer)?;
    Ok(answer.err())
}

/// Whether this is the printed form of the name that a word spells in a realm.
fn is_printed(alloc: Global, word: &[u8], realm: &[u8], printed: &[u8]) -> Result<bool, NameFault> {
    let answer = parse_name(alloc, word, realm);
    let answer = told(alloc, answer)?;
    Ok(answer.map_or(false, |text| text.as_slice() == printed))
}

/// So many letters, and then this text.
fn letters(alloc: Global, count: usize, text: &[u8]) -> Result<Vec<u8>, AllocError> {
    let mut word = Vec::new(alloc);
    for _ in 0..count {
        word.push(b'n')?;
    }
    word.extend_from_slice(text)?;
    Ok(word)
}

/// Words, and their names in the printed form.
const SPELLED: [(&[u8], &[u8]); 12] = [
    (b"alice", b"alice@EXAMPLE.ORG"),
    (b"alice@EXAMPLE.ORG", b"alice@EXAMPLE.ORG"),
    (b"host/", b"host/@EXAMPLE.ORG"),
    (b"", b"@EXAMPLE.ORG"),
    (b"//", b"//@EXAMPLE.ORG"),
    (b"K\\/M", b"K\\/M@EXAMPLE.ORG"),
    (b"kadmin/histor\\y", b"kadmin/history@EXAMPLE.ORG"),
    (b"\\n\\t\\b\\0", b"\\n\\t\\b\\0@EXAMPLE.ORG"),
    (b"\\@\\\\\\ \\*", b"\\@\\\\ *@EXAMPLE.ORG"),
    (b"a@\\@\\/", b"a@\\@\\/"),
    (b"*", b"*@EXAMPLE.ORG"),
    (
        b"a/a/a/a/a/a/a/a/a/a/a/a/a/a/a/a",
        b"a/a/a/a/a/a/a/a/a/a/a/a/a/a/a/a@EXAMPLE.ORG",
    ),
];

/// Words that spell no name, and the places of their faults.
const REFUSED: [(&[u8], usize); 14] = [
    (b"a@", 2),
    (b"a@X@Y", 3),
    (b"a@X/Y", 3),
    (b"a\\", 1),
    (b"a@X\\", 3),
    (b"a\nb", 1),
    (b"\x7f", 0),
    (b"a\\\x1f", 2),
    (b"a@\x01@", 2),
    (b"a@X@\x01", 3),
    (b"\x00\\", 0),
    (b"@", 1),
    (b"a/a/a/a/a/a/a/a/a/a/a/a/a/a/a/a/a", 33),
    (b"a/a/a/a/a/a/a/a/a/a/a/a/a/a/a/a/a@OTHER", 39),
];

#[test]
fn reads_each_spelling_and_prints_one(rt: HostRuntime) -> Result<(), Fail> {
    for (word, printed) in SPELLED.iter() {
        let first = is_printed(rt.alloc(), word, REALM, printed)?;
        assert!(rt; first, "{word:?}");
        let again = is_printed(rt.alloc(), printed, b"OTHER", printed)?;
        assert!(rt; again, "{word:?} again");
    }
    Ok(())
}

#[test]
fn refuses_at_the_first_fault(rt: HostRuntime) -> Result<(), Fail> {
    for (word, offset) in REFUSED.iter() {
        let answer = parse_name(rt.alloc(), word, REALM);
        assert_eq!(rt; fault_of(rt.alloc(), answer)?, Some(*offset), "{word:?}");
    }
    Ok(())
}

#[test]
fn refuses_a_realm_that_is_none(rt: HostRuntime) -> Result<(), Fail> {
    let realms: [&[u8]; 2] = [b"", b"\x01"];
    for realm in realms.iter() {
        let answer = parse_name(rt.alloc(), b"a", realm);
        assert_eq!(rt; fault_of(rt.alloc(), answer)?, Some(1), "{realm:?}");
    }
    Ok(())
}

/// A word of so many letters, and its name, or the fault.
fn name_of_letters(alloc: Global, count: usize) -> Result<Name, NameFault> {
    let word = letters(alloc, count, b"")?;
    parse_own_name(alloc, &word, REALM)
}

#[test]
fn counts_printed_bytes(rt: HostRuntime) -> Result<(), Fail> {
    let longest = name_of_letters(rt.alloc(), 243)?;
    assert_eq!(rt; longest.printed_len(), 255);
    Ok(())
}

#[test]
fn refuses_256_printed_bytes(rt: HostRuntime) -> Result<(), Fail> {
    let answer = name_of_letters(rt.alloc(), 244);
    assert_eq!(rt; fault_of(rt.alloc(), answer)?, Some(244));
    Ok(())
}

#[test]
fn wants_the_own_realm(rt: HostRuntime) -> Result<(), Fail> {
    let words: [(&[u8], usize); 2] = [
        (b"a@OTHER", 2),
        (b"a/a/a/a/a/a/a/a/a/a/a/a/a/a/a/a/a@OTHER", 39),
    ];
    for (word, offset) in words.iter() {
        let answer = parse_own_name(rt.alloc(), word, REALM);
        assert_eq!(rt; fault_of(rt.alloc(), answer)?, Some(*offset), "{word:?}");
    }
    Ok(())
}

/// Whether two words spell the same name.
fn is_same(alloc: Global, word: &[u8], other: &[u8]) -> Result<bool, NameFault> {
    let name = parse_own_name(alloc, word, REALM)?;
    let again = parse_own_name(alloc, other, REALM)?;
    Ok(name == again)
}

#[test]
fn names_are_equal_by_their_parts(rt: HostRuntime) -> Result<(), Fail> {
    assert!(rt; is_same(rt.alloc(), b"a\\/b", b"\\a\\/b@EXAMPLE.ORG")?);
    assert!(rt; !is_same(rt.alloc(), b"a\\/b", b"a/b")?);
    Ok(())
}

#[test]
fn a_slash_parts_a_name(rt: HostRuntime) -> Result<(), Fail> {
    let name = parse_own_name(rt.alloc(), b"a/b", REALM)?;
    assert_eq!(rt; name.parts().len(), 2);
    Ok(())
}

/// The hits of a pattern at a name, where it matches.
fn hits_at(alloc: Global, pattern: &[u8], name: &[u8]) -> Result<Option<Hits>, NameFault> {
    let pattern = Pattern::parse(alloc, pattern, REALM)?;
    let name = parse_name(alloc, name, REALM)?;
    let mut hits = Hits { at: [Some(7); 9] };
    let matched = pattern.matches(&name, &mut hits);
    Ok(if matched { Some(hits) } else { None })
}

const NONE: [Option<u8>; 9] = [None; 9];

/// Patterns, names, and the places that the wildcards hit.
const MATCHED: [(&[u8], &[u8], [Option<u8>; 9]); 6] = [
    (b"*", b"a/b@OTHER", NONE),
    (b"\\*", b"\\*", NONE),
    (
        b"*1/*",
        b"\\*1/a",
        [Some(1), None, None, None, None, None, None, None, None],
    ),
    (
        b"*/admin",
        b"alice/admin",
        [Some(0), None, None, None, None, None, None, None, None],
    ),
    (
        b"host/*@*",
        b"host/a@OTHER",
        [Some(1), Some(2), None, None, None, None, None, None, None],
    ),
    (
        b"*/*/*/*/*/*/*/*/*/*@*",
        b"a/a/a/a/a/a/a/a/a/a",
        [
            Some(0),
            Some(1),
            Some(2),
            Some(3),
            Some(4),
            Some(5),
            Some(6),
            Some(7),
            Some(8),
        ],
    ),
];

const UNMATCHED: [(&[u8], &[u8]); 6] = [
    (b"a*", b"ab"),
    (b"\\*", b"alice"),
    (b"*/admin", b"alice/admin@OTHER"),
    (b"*/*", b"a"),
    (b"*/*", b"a/a/a"),
    (b"*@OTHER", b"a"),
];

#[test]
fn matches_part_by_part(rt: HostRuntime) -> Result<(), Fail> {
    for (pattern, name, at) in MATCHED.iter() {
        let hits = hits_at(rt.alloc(), pattern, name)?;
        assert_eq!(rt; hits, Some(Hits { at: *at }), "{pattern:?}");
    }
    Ok(())
}

#[test]
fn matches_no_other_name(rt: HostRuntime) -> Result<(), Fail> {
    for (pattern, name) in UNMATCHED.iter() {
        assert_eq!(rt; hits_at(rt.alloc(), pattern, name)?, None, "{pattern:?}");
    }
    Ok(())
}

#[test]
fn a_star_alone_has_no_parts(rt: HostRuntime) -> Result<(), Fail> {
    let every = Pattern::parse(rt.alloc(), b"*", b"")?;
    assert!(rt; every.parts().is_none());
    Ok(())
}

#[test]
fn a_pattern_without_its_realm_is_refused(rt: HostRuntime) {
    let fault = Pattern::parse(rt.alloc(), b"*@", REALM).err();
    assert_eq!(rt; fault, Some(NameFault::BadName { offset: 2 }));
}

/// Patterns, and the kinds of their first component and of their realm.
const KINDS: [(&[u8], Kind, Kind); 11] = [
    (b"a*", Kind::Text, Kind::Text),
    (b"*/a", Kind::Any, Kind::Text),
    (b"\\*/a", Kind::Text, Kind::Text),
    (b"a@*", Kind::Text, Kind::Any),
    (b"a@\\*", Kind::Text, Kind::Text),
    (b"*1/a", Kind::Wildcard(0), Kind::Text),
    (b"*9@*2", Kind::Wildcard(8), Kind::Wildcard(1)),
    (b"*0", Kind::Text, Kind::Text),
    (b"*12", Kind::Text, Kind::Text),
    (b"\\*1", Kind::Text, Kind::Text),
    (b"*\\1", Kind::Text, Kind::Text),
];

#[test]
fn kinds_are_told_from_unescaped_bytes(rt: HostRuntime) -> Result<(), Fail> {
    for (word, first, realm) in KINDS.iter() {
        let pattern = Pattern::parse(rt.alloc(), word, REALM)?;
        let parts = pattern.parts().expect(&rt, "parts");
        assert_eq!(rt;
            parts.first().map(|part| part.kind()),
            Some(*first),
            "{word:?}"
        );
        assert_eq!(rt;
            pattern.realm().map(|part| part.kind()),
            Some(*realm),
            "{word:?}"
        );
    }
    Ok(())
}

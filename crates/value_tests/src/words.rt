//! Lines and the words that they have.

use kadm_words::split_words;
use kdb_base::{Blob, MemoryOut};
use std::alloc::Global;
use std::process::Abort;
use std::test::*;

fn push_word(text: &mut Vec<u8>, word: &[u8]) -> Result<(), MemoryOut> {
    text.push(b'|')?;
    text.extend_from_slice(word)?;
    Ok(())
}

// The words, each behind a vertical bar.
fn joined(alloc: Global, words: &[Blob]) -> Result<Vec<u8>, MemoryOut> {
    let mut text = Vec::new(alloc);
    for word in words {
        push_word(&mut text, word.as_slice())?;
    }
    Ok(text)
}

// The words of a line, each behind a vertical bar.
fn barred(alloc: Global, line: &[u8]) -> Result<Option<Vec<u8>>, MemoryOut> {
    match split_words(alloc, line)? {
        Some(words) => Ok(Some(joined(alloc, &words)?)),
        None => Ok(None),
    }
}

fn check_words(rt: &impl Abort, alloc: Global, line: &[u8], expected: &[u8]) -> Result<(), Fail> {
    match barred(alloc, line)? {
        Some(text) => assert_eq!(rt; text.as_slice(), expected, "{line:?}"),
        None => assert_eq!(rt; b"!".as_slice(), expected, "{line:?}"),
    }
    Ok(())
}

/// Lines and their words; `!` where no words spell the line.
const LINES: [(&[u8], &[u8]); 13] = [
    (b"", b""),
    (b" \t ", b""),
    (b"a", b"|a"),
    (b" a\tb  c ", b"|a|b|c"),
    (b"\"\" \"a b\"", b"||a b"),
    (b"\"a\"\"b\"", b"|a\"b"),
    (b"\"\t\x01\"", b"|\t\x01"),
    (b"\x80\xff", b"|\x80\xff"),
    (b"\"a", b"!"),
    (b"\"a\"b", b"!"),
    (b"a\"b\"", b"!"),
    (b"a\x1f", b"!"),
    (b"a\r", b"!"),
];

#[test]
fn words(rt: HostRuntime) -> Result<(), Fail> {
    for (line, expected) in LINES.iter() {
        check_words(&rt, rt.alloc(), line, *expected)?;
    }
    Ok(())
}

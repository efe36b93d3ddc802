//! Keys: what is made, shown, kept, remembered and taken away.

use crate::runs::{Turn, check_last_and_log, check_session, repeated};
use std::alloc::Global;
use std::process::Abort;
use std::test::Fail;

/// A principal with the keys of a password, and the keys themselves. Those of s3cret with the salt
/// EXAMPLE.ORGalice were made by the rules of RFC 3962 and RFC 8009 with Python's hashlib and OpenSSL's AES.
const BY_PASSWORD: [Turn; 6] = [
    ("addprinc -pw s3cret alice", "ok 2 1700000000.000000"),
    (
        "getprinc alice",
        "- principal alice@EXAMPLE.ORG\n- expires never\n- pwexpires never\n\
- pwchanged 2023-11-14T22:13:20Z\n- maxlife 0\n- maxrenewlife 0\n\
- modified 2023-11-14T22:13:20Z admin/local@EXAMPLE.ORG\n- mkvno 1\n- flags none\n- policy -\n\
- key 1 aes256-cts-hmac-sha1-96 normal\n- key 1 aes128-cts-hmac-sha1-96 normal\nok",
    ),
    (
        "extract alice",
        "- key 1 aes256-cts-hmac-sha1-96 aaa9b920f0f52f8ef1f77d2ca25056e6b40a0c441f2b103357c8c3fcefb32d39\n\
- key 1 aes128-cts-hmac-sha1-96 91e79f5f1b27517820bc5d2cfd26b2f5\n\
ok",
    ),
    ("cpw -pw s3cret alice", "err 11 PassReused"),
    (
        "cpw -pw s3cret -e aes128-sha2:normal,aes256-sha2 alice",
        "ok 3 1700000000.000000",
    ),
    (
        "extract alice",
        "- key 2 aes128-cts-hmac-sha256-128 7f34fd38260ba848362107b4035e65e5\n\
- key 2 aes256-cts-hmac-sha384-192 59ce5c719dd5553edca4ca98109fb521ef0befeceb05ab78fc29c25392e31e35\n\
ok",
    ),
];

/// Each line that is read as a command takes the next 2048 random bytes, which are here those of ChaCha20 under zeros
/// (RFC 8439), and a new key is followed by 16 bytes for its wrapping. The bytes were made with OpenSSL.
const BY_RANDOM_BYTES: [Turn; 6] = [
    ("frob", "err 1 BadLine"),
    ("addprinc -randkey svc", "ok 2 1700000000.000000"),
    (
        "extract svc",
        "- key 1 aes256-cts-hmac-sha1-96 76b8e0ada0f13d90405d6ae55386bd28bdd219b8a08ded1aa836efcc8b770dc7\n\
- key 1 aes128-cts-hmac-sha1-96 6a43b8f41518a11cc387b669b2ee6586\n\
ok",
    ),
    ("addprinc -randkey svc", "err 3 Duplicate"),
    ("cpw -randkey svc", "ok 3 1700000000.000000"),
    (
        "extract svc",
        "- key 2 aes256-cts-hmac-sha1-96 8f530d653193e12de05ec8ea31e9f040b0e7f9faeb4ae6928e630eec7bb33e21\n\
- key 2 aes128-cts-hmac-sha1-96 14165291d76ea64e9c1d2a61bf28081e\n\
ok",
    ),
];

/// Versions of keys that stay and go. Where none is left, the next is version 1.
const VERSIONS: [Turn; 12] = [
    (
        "addprinc -randkey -e aes128-cts svc",
        "ok 2 1700000000.000000",
    ),
    (
        "cpw -randkey -keepold -e aes256-cts svc",
        "ok 3 1700000000.000000",
    ),
    (
        "getprinc svc",
        "- principal svc@EXAMPLE.ORG\n- expires never\n- pwexpires never\n\
- pwchanged 2023-11-14T22:13:20Z\n- maxlife 0\n- maxrenewlife 0\n\
- modified 2023-11-14T22:13:20Z admin/local@EXAMPLE.ORG\n- mkvno 1\n- flags none\n- policy -\n\
- key 2 aes256-cts-hmac-sha1-96 normal\n- key 1 aes128-cts-hmac-sha1-96 normal\nok",
    ),
    ("purgekeys -keepkvno 1 svc", "ok 4 1700000000.000000"),
    ("purgekeys svc", "ok 5 1700000000.000000"),
    (
        "extract svc",
        "- key 2 aes256-cts-hmac-sha1-96 f942dfa372b41a390eabbbf296383d438466ae6105b5058117b8e406dcaa62a9\n\
ok",
    ),
    ("purgekeys -keepkvno 3 svc", "ok 6 1700000000.000000"),
    ("extract svc", "ok"),
    ("cpw -randkey -e aes128-cts svc", "ok 7 1700000000.000000"),
    (
        "extract svc",
        "- key 1 aes128-cts-hmac-sha1-96 ee465a3863137dd3d3128b357fb4f8a5\n\
ok",
    ),
    ("purgekeys -keepkvno 0 svc", "err 13 BadValue keepkvno"),
    ("purgekeys nobody", "err 4 UnknownPrincipal"),
];

/// A new name keeps the keys, whose salt is a special one then, so that the same password makes others.
const RENAMED: [Turn; 10] = [
    ("addprinc -pw s3cret alice", "ok 2 1700000000.000000"),
    ("renprinc alice bob", "ok 3 1700000000.000000"),
    (
        "extract bob",
        "- key 1 aes256-cts-hmac-sha1-96 aaa9b920f0f52f8ef1f77d2ca25056e6b40a0c441f2b103357c8c3fcefb32d39\n\
- key 1 aes128-cts-hmac-sha1-96 91e79f5f1b27517820bc5d2cfd26b2f5\n\
ok",
    ),
    (
        "getprinc bob",
        "- principal bob@EXAMPLE.ORG\n- expires never\n- pwexpires never\n\
- pwchanged 2023-11-14T22:13:20Z\n- maxlife 0\n- maxrenewlife 0\n\
- modified 2023-11-14T22:13:20Z admin/local@EXAMPLE.ORG\n- mkvno 1\n- flags none\n- policy -\n\
- key 1 aes256-cts-hmac-sha1-96 special\n- key 1 aes128-cts-hmac-sha1-96 special\nok",
    ),
    ("getprinc alice", "err 4 UnknownPrincipal"),
    ("renprinc nobody bob", "err 3 Duplicate"),
    ("renprinc bob bob", "err 3 Duplicate"),
    (
        "rename_principal -force nobody carol",
        "err 4 UnknownPrincipal",
    ),
    ("cpw -pw s3cret bob", "ok 4 1700000000.000000"),
    (
        "extract bob",
        "- key 2 aes256-cts-hmac-sha1-96 5c347b5d1e536f25cc539718e1d6ad65a2c142e1f8a9ba9f4f94ab6a5b2a47aa\n\
- key 2 aes128-cts-hmac-sha1-96 bf7c6706e0662fa253c9522cc7e36f04\n\
ok",
    ),
];

#[test]
fn keys_are_made_shown_kept_and_taken_away(rt: HostRuntime) -> Result<(), Fail> {
    check_session(&rt, rt.alloc(), &BY_PASSWORD)?;
    check_session(&rt, rt.alloc(), &BY_RANDOM_BYTES)?;
    check_session(&rt, rt.alloc(), &VERSIONS)?;
    check_session(&rt, rt.alloc(), &RENAMED)
}

fn push_words(out: &mut Vec<u8>, front: &[u8], name: &[u8]) -> Result<(), Fail> {
    out.extend_from_slice(front)?;
    out.extend_from_slice(name)?;
    Ok(())
}

/// Lines that give a principal of this name one version of random keys after another.
pub(crate) fn versions(alloc: Global, name: &[u8], count: usize) -> Result<Vec<u8>, Fail> {
    let mut input = Vec::new(alloc);
    push_words(&mut input, b"addprinc -randkey ", name)?;
    for _ in 1..count {
        push_words(&mut input, b"\ncpw -randkey -keepold ", name)?;
    }
    input.push(b'\n')?;
    Ok(input)
}

/// The log of one entry behind its beginning, in blocks that are longer than that entry.
const OF_KEYS: &[u8] = b"- first 1 1700000000.000001\n- last 2 1700000000.000001\n\
- size 1000 block 4096\n- 1 1700000000.000001 base\n\
- 2 1700000000.000001 put svc@EXAMPLE.ORG\nok\n";

const OF_A_NEW_NAME: &[u8] = b"- first 1 1700000000.000002\n- last 2 1700000000.000002\n\
- size 1000 block 10240\n- 1 1700000000.000002 base\n- 2 1700000000.000002 rename nnn";

fn check_many_keys(rt: &impl Abort, alloc: Global) -> Result<(), Fail> {
    let input = versions(alloc, b"svc", 17)?;
    let last = b"ok 16 1700000000.000000\nok 2 1700000000.000001\nerr 28 KeysFull\n";
    check_last_and_log(rt, alloc, &input, last, OF_KEYS)
}

/// Lines that give a principal sixteen versions of keys, and then a new name.
fn renamed(alloc: Global) -> Result<Vec<u8>, Fail> {
    let name = repeated(alloc, b'n', 200)?;
    let mut input = versions(alloc, &name, 16)?;
    push_words(&mut input, b"renprinc ", &name)?;
    input.extend_from_slice(b" b\n")?;
    Ok(input)
}

/// The salts of a new name make the entry longer.
fn check_new_name(rt: &impl Abort, alloc: Global) -> Result<(), Fail> {
    let input = renamed(alloc)?;
    let last = b"\nok 2 1700000000.000002\n";
    check_last_and_log(rt, alloc, &input, last, OF_A_NEW_NAME)
}

#[test]
fn a_long_entry_begins_the_log_anew(rt: HostRuntime) -> Result<(), Fail> {
    check_many_keys(&rt, rt.alloc())?;
    check_new_name(&rt, rt.alloc())
}

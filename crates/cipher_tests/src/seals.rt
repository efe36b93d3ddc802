//! The vectors of RFC 3961, RFC 3962 and RFC 8009, and those that MIT Kerberos publishes with its
//! tests.

use kdb_base::{Etype, PlainKey};
use krb_profile::{UnsealFault, UsageKeys, derive, n_fold, seal, string_to_key, unseal};
use std::test::Fail;

/// A vector of RFC 3961, appendix A.1.
#[derive(Drop)]
struct Folded<'a> {
    text: &'a [u8],
    folded: &'a [u8],
}

#[test]
fn n_fold_vectors(rt: HostRuntime) {
    let vectors = [
        Folded {
            text: b"012345",
            folded: b"\xbe\x07\x26\x31\x27\x6b\x19\x55",
        },
        Folded {
            text: b"password",
            folded: b"\x78\xa0\x7b\x6c\xaf\x85\xfa",
        },
        Folded {
            text: b"Rough Consensus, and Running Code",
            folded: b"\xbb\x6e\xd3\x08\x70\xb7\xf0\xe0",
        },
        Folded {
            text: b"password",
            folded: b"\x59\xe4\xa8\xca\x7c\x03\x85\xc3\xc3\x7b\x3f\x6d\x20\x00\x24\x7c\xb6\xe6\xbd\x5b\x3e",
        },
        Folded {
            text: b"MASSACHVSETTS INSTITVTE OF TECHNOLOGY",
            folded: b"\xdb\x3b\x0d\x8f\x0b\x06\x1e\x60\x32\x82\xb3\x08\xa5\x08\x41\x22\x9a\xd7\x98\xfa\xb9\x54\x0c\x1b",
        },
        Folded {
            text: b"Q",
            folded: b"\x51\x8a\x54\xa2\x15\xa8\x45\x2a\x51\x8a\x54\xa2\x15\xa8\x45\x2a\x51\x8a\x54\xa2\x15",
        },
        Folded {
            text: b"ba",
            folded: b"\xfb\x25\xd5\x31\xae\x89\x74\x49\x9f\x52\xfd\x92\xea\x98\x57\xc4\xba\x24\xcf\x29\x7e",
        },
        Folded {
            text: b"kerberos",
            folded: b"\x6b\x65\x72\x62\x65\x72\x6f\x73",
        },
        Folded {
            text: b"kerberos",
            folded: b"\x6b\x65\x72\x62\x65\x72\x6f\x73\x7b\x9b\x5b\x2b\x93\x13\x2b\x93",
        },
        Folded {
            text: b"kerberos",
            folded: b"\x83\x72\xc2\x36\x34\x4e\x5f\x15\x50\xcd\x07\x47\xe1\x5d\x62\xca\x7a\x5a\x3b\xce\xa4",
        },
        Folded {
            text: b"kerberos",
            folded: b"\x6b\x65\x72\x62\x65\x72\x6f\x73\x7b\x9b\x5b\x2b\x93\x13\x2b\x93\x5c\x9b\xdc\xda\xd9\x5c\x98\x99\xc4\xca\xe4\xde\xe6\xd6\xca\xe4",
        },
    ];
    for vector in &vectors {
        assert!(rt; 1 <= vector.text.len() && vector.text.len() <= 64);
        assert!(rt; 1 <= vector.folded.len() && vector.folded.len() <= 64);
        let mut buffer = [0; 64];
        let folded = &mut buffer[..vector.folded.len()];
        n_fold(vector.text, folded);
        assert!(rt; *folded == *vector.folded);
    }
}

/// A vector of RFC 3962, appendix B.
#[derive(Drop)]
struct Phrase<'a> {
    password: &'a [u8],
    salt: &'a [u8],
    count: u32,
    short: &'a [u8; 16],
    long: &'a [u8; 32],
}

#[test]
fn string_to_key_vectors(rt: HostRuntime) {
    let vectors = [
        Phrase {
            password: b"password",
            salt: b"ATHENA.MIT.EDUraeburn",
            count: 1,
            short: b"\x42\x26\x3c\x6e\x89\xf4\xfc\x28\xb8\xdf\x68\xee\x09\x79\x9f\x15",
            long: b"\xfe\x69\x7b\x52\xbc\x0d\x3c\xe1\x44\x32\xba\x03\x6a\x92\xe6\x5b\xbb\x52\x28\x09\x90\xa2\xfa\x27\x88\x39\x98\xd7\x2a\xf3\x01\x61",
        },
        Phrase {
            password: b"password",
            salt: b"ATHENA.MIT.EDUraeburn",
            count: 2,
            short: b"\xc6\x51\xbf\x29\xe2\x30\x0a\xc2\x7f\xa4\x69\xd6\x93\xbd\xda\x13",
            long: b"\xa2\xe1\x6d\x16\xb3\x60\x69\xc1\x35\xd5\xe9\xd2\xe2\x5f\x89\x61\x02\x68\x56\x18\xb9\x59\x14\xb4\x67\xc6\x76\x22\x22\x58\x24\xff",
        },
        Phrase {
            password: b"password",
            salt: b"ATHENA.MIT.EDUraeburn",
            count: 1200,
            short: b"\x4c\x01\xcd\x46\xd6\x32\xd0\x1e\x6d\xbe\x23\x0a\x01\xed\x64\x2a",
            long: b"\x55\xa6\xac\x74\x0a\xd1\x7b\x48\x46\x94\x10\x51\xe1\xe8\xb0\xa7\x54\x8d\x93\xb0\xab\x30\xa8\xbc\x3f\xf1\x62\x80\x38\x2b\x8c\x2a",
        },
        Phrase {
            password: b"password",
            salt: b"\x12\x34\x56\x78\x78\x56\x34\x12",
            count: 5,
            short: b"\xe9\xb2\x3d\x52\x27\x37\x47\xdd\x5c\x35\xcb\x55\xbe\x61\x9d\x8e",
            long: b"\x97\xa4\xe7\x86\xbe\x20\xd8\x1a\x38\x2d\x5e\xbc\x96\xd5\x90\x9c\xab\xcd\xad\xc8\x7c\xa4\x8f\x57\x45\x04\x15\x9f\x16\xc3\x6e\x31",
        },
        Phrase {
            password: &[b'X'; 64],
            salt: b"pass phrase equals block size",
            count: 1200,
            short: b"\x59\xd1\xbb\x78\x9a\x82\x8b\x1a\xa5\x4e\xf9\xc2\x88\x3f\x69\xed",
            long: b"\x89\xad\xee\x36\x08\xdb\x8b\xc7\x1f\x1b\xfb\xfe\x45\x94\x86\xb0\x56\x18\xb7\x0c\xba\xe2\x20\x92\x53\x4e\x56\xc5\x53\xba\x4b\x34",
        },
        Phrase {
            password: &[b'X'; 65],
            salt: b"pass phrase exceeds block size",
            count: 1200,
            short: b"\xcb\x80\x05\xdc\x5f\x90\x17\x9a\x7f\x02\x10\x4c\x00\x18\x75\x1d",
            long: b"\xd7\x8c\x5c\x9c\xb8\x72\xa8\xc9\xda\xd4\x69\x7f\x0b\xb5\xb2\xd2\x14\x96\xc8\x2b\xeb\x2c\xae\xda\x21\x12\xfc\xee\xa0\x57\x40\x1b",
        },
        Phrase {
            password: b"\xf0\x9d\x84\x9e",
            salt: b"EXAMPLE.COMpianist",
            count: 50,
            short: b"\xf1\x49\xc1\xf2\xe1\x54\xa7\x34\x52\xd4\x3e\x7f\xe6\x2a\x56\xe5",
            long: b"\x4b\x6d\x98\x39\xf8\x44\x06\xdf\x1f\x09\xcc\x16\x6d\xb4\xb8\x3c\x57\x18\x48\xb7\x84\xa3\xd6\xbd\xc3\x46\x58\x9a\x3e\x39\x3f\x9e",
        },
    ];
    for vector in &vectors {
        assert!(rt; 1 <= vector.count);
        let short = string_to_key(Etype::Aes128, vector.password, vector.salt, vector.count);
        assert!(rt; short.as_slice() == vector.short.as_slice());
        let long = string_to_key(Etype::Aes256, vector.password, vector.salt, vector.count);
        assert!(rt; long.as_slice() == vector.long.as_slice());
    }
}

#[test]
fn seals_and_unseals(rt: HostRuntime) -> Result<(), Fail> {
    let key = string_to_key(Etype::Aes256, b"password", b"ATHENA.MIT.EDUraeburn", 1);
    let blob = seal(rt.alloc(), &key, 2, &[7; 16], b"a plain text")?;
    assert_eq!(rt; blob.len(), 40);
    let plain = unseal(rt.alloc(), &key, 2, blob.as_slice())?;
    assert!(rt; plain.as_slice() == b"a plain text".as_slice());
    let other = unseal(rt.alloc(), &key, 3, blob.as_slice());
    assert!(rt; other.err() == Some(UnsealFault::BadTag));
    Ok(())
}

/// A derived key of MIT Kerberos' tests.
#[derive(Drop)]
struct Derived<'a> {
    constant: &'a [u8],
    derived: &'a [u8; 16],
}

#[test]
fn derivation_vectors(rt: HostRuntime) {
    let key = PlainKey::from_bytes(
        Etype::Aes128,
        b"\x42\x26\x3c\x6e\x89\xf4\xfc\x28\xb8\xdf\x68\xee\x09\x79\x9f\x15",
    );
    let vectors = [
        Derived {
            constant: b"\x00\x00\x00\x02\x99",
            derived: b"\x34\x28\x0a\x38\x2b\xc9\x27\x69\xb2\xda\x2f\x9e\xf0\x66\x85\x4b",
        },
        Derived {
            constant: b"\x00\x00\x00\x02\xaa",
            derived: b"\x5b\x14\xfc\x4e\x25\x0e\x14\xdd\xf9\xdc\xcf\x1a\xf6\x67\x4f\x53",
        },
        Derived {
            constant: b"\x00\x00\x00\x02\x55",
            derived: b"\x4e\xd3\x10\x63\x62\x16\x84\xf0\x9a\xe8\xd8\x99\x91\xaf\x3e\x8f",
        },
    ];
    for vector in &vectors {
        assert!(rt; 1 <= vector.constant.len() && vector.constant.len() <= 64);
        let derived = derive(&key, vector.constant);
        assert!(rt; derived.as_slice() == vector.derived.as_slice());
    }
}

#[test]
fn an_empty_text_is_unsealed(rt: HostRuntime) -> Result<(), Fail> {
    let key = PlainKey::from_bytes(
        Etype::Aes128,
        b"\x5a\x5c\x0f\x0b\xa5\x4f\x38\x28\xb2\x19\x5e\x66\xca\x24\xa2\x89",
    );
    let blob =
        b"\x49\xff\x8e\x11\xc1\x73\xd9\x58\x3a\x32\x54\xfb\xe7\xb1\xf1\xdf\x36\xc5\x38\xe8\x41\x67\x84\xa1\x67\x2e\x66\x76";
    let plain = unseal(rt.alloc(), &key, 0, blob)?;
    assert!(rt; plain.is_empty());
    let short = unseal(rt.alloc(), &key, 0, &blob[1..]);
    assert!(rt; short.err() == Some(UnsealFault::Short));
    Ok(())
}

// Made with OpenSSL's AES and Python's HMAC, apart from this code.
#[test]
fn a_whole_seal(rt: HostRuntime) -> Result<(), Fail> {
    let key = string_to_key(Etype::Aes256, b"password", b"ATHENA.MIT.EDUraeburn", 1);
    let confounder = [0, 1, 2, 3, 4, 5, 6, 7, 8, 9, 10, 11, 12, 13, 14, 15];
    let plain = b"a plain text of 32 bytes, sealed";
    let blob = seal(rt.alloc(), &key, 2, &confounder, plain)?;
    assert!(rt;
        blob.as_slice()
            == b"\xd5\x84\x76\x51\x82\x3e\x0b\x17\x77\x5f\x29\xe0\x97\xff\x79\x53\x45\xce\x7b\x80\xf8\x53\x4a\x50\x02\x9a\x09\xc0\x09\x69\x0d\x05\x25\x39\xfa\xad\xce\xb9\x36\x50\xcd\xf3\x42\x5c\x15\x19\x20\xae\x1c\x58\x96\x4c\x9e\xdb\xf3\x40\x49\x5c\xc6\xd4".as_slice()
    );
    Ok(())
}

// A vector of RFC 8009, appendix A.
#[test]
fn a_whole_seal_of_sha2(rt: HostRuntime) -> Result<(), Fail> {
    let key = PlainKey::from_bytes(
        Etype::Aes128Sha2,
        b"\x37\x05\xd9\x60\x80\xc1\x77\x28\xa0\xe8\x00\xea\xb6\xe0\xd2\x3c",
    );
    let keys = UsageKeys::new(&key, 2);
    let blob = keys.seal(
        rt.alloc(),
        b"\x7b\xca\x28\x5e\x2f\xd4\x13\x0f\xb5\x5b\x1a\x5c\x83\xbc\x5b\x24",
        b"\x00\x01\x02\x03\x04\x05",
    )?;
    assert!(rt;
        blob.as_slice()
            == b"\x84\xd7\xf3\x07\x54\xed\x98\x7b\xab\x0b\xf3\x50\x6b\xeb\x09\xcf\xb5\x54\x02\xce\xf7\xe6\x87\x7c\xe9\x9e\x24\x7e\x52\xd1\x6e\xd4\x42\x1d\xfd\xf8\x97\x6c".as_slice()
    );
    let plain = keys.unseal(rt.alloc(), blob.as_slice())?;
    assert!(rt; plain.as_slice() == b"\x00\x01\x02\x03\x04\x05".as_slice());
    Ok(())
}

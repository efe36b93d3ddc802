//! The vectors of RFC 2202 and RFC 6070.

use krb_hmac::{hmac_sha1, pbkdf2};

/// A vector of RFC 2202, section 3.
#[derive(Drop)]
struct Tagged<'a> {
    key: &'a [u8],
    text: &'a [u8],
    tag: &'a [u8; 20],
}

/// A vector of RFC 6070.
#[derive(Drop)]
struct Derived<'a> {
    password: &'a [u8],
    salt: &'a [u8],
    count: u32,
    key: &'a [u8],
}

#[test]
fn hmac_vectors(rt: HostRuntime) {
    let counted: [u8; 25] = [
        1, 2, 3, 4, 5, 6, 7, 8, 9, 10, 11, 12, 13, 14, 15, 16, 17, 18, 19, 20, 21, 22, 23, 24, 25,
    ];
    let vectors = [
        Tagged {
            key: &[0x0b; 20],
            text: b"Hi There",
            tag: b"\xb6\x17\x31\x86\x55\x05\x72\x64\xe2\x8b\xc0\xb6\xfb\x37\x8c\x8e\xf1\x46\xbe\x00",
        },
        Tagged {
            key: b"Jefe",
            text: b"what do ya want for nothing?",
            tag: b"\xef\xfc\xdf\x6a\xe5\xeb\x2f\xa2\xd2\x74\x16\xd5\xf1\x84\xdf\x9c\x25\x9a\x7c\x79",
        },
        Tagged {
            key: &[0xaa; 20],
            text: &[0xdd; 50],
            tag: b"\x12\x5d\x73\x42\xb9\xac\x11\xcd\x91\xa3\x9a\xf4\x8a\xa1\x7b\x4f\x63\xf1\x75\xd3",
        },
        Tagged {
            key: &counted,
            text: &[0xcd; 50],
            tag: b"\x4c\x90\x07\xf4\x02\x62\x50\xc6\xbc\x84\x14\xf9\xbf\x50\xc8\x6c\x2d\x72\x35\xda",
        },
        Tagged {
            key: &[0x0c; 20],
            text: b"Test With Truncation",
            tag: b"\x4c\x1a\x03\x42\x4b\x55\xe0\x7f\xe7\xf2\x7b\xe1\xd5\x8b\xb9\x32\x4a\x9a\x5a\x04",
        },
        Tagged {
            key: &[0xaa; 80],
            text: b"Test Using Larger Than Block-Size Key - Hash Key First",
            tag: b"\xaa\x4a\xe5\xe1\x52\x72\xd0\x0e\x95\x70\x56\x37\xce\x8a\x3b\x55\xed\x40\x21\x12",
        },
        Tagged {
            key: &[0xaa; 80],
            text: b"Test Using Larger Than Block-Size Key and Larger Than One Block-Size Data",
            tag: b"\xe8\xe9\x9d\x0f\x45\x23\x7d\x78\x6d\x6b\xba\xa7\x96\x5c\x78\x08\xbb\xff\x1a\x91",
        },
    ];
    for vector in &vectors {
        assert!(rt; hmac_sha1(vector.key, vector.text) == *vector.tag);
    }
}

#[test]
fn pbkdf2_vectors(rt: HostRuntime) {
    let vectors = [
        Derived {
            password: b"password",
            salt: b"salt",
            count: 1,
            key: b"\x0c\x60\xc8\x0f\x96\x1f\x0e\x71\xf3\xa9\xb5\x24\xaf\x60\x12\x06\x2f\xe0\x37\xa6",
        },
        Derived {
            password: b"password",
            salt: b"salt",
            count: 2,
            key: b"\xea\x6c\x01\x4d\xc7\x2d\x6f\x8c\xcd\x1e\xd9\x2a\xce\x1d\x41\xf0\xd8\xde\x89\x57",
        },
        Derived {
            password: b"password",
            salt: b"salt",
            count: 4096,
            key: b"\x4b\x00\x79\x01\xb7\x65\x48\x9a\xbe\xad\x49\xd9\x26\xf7\x21\xd0\x65\xa4\x29\xc1",
        },
        Derived {
            password: b"passwordPASSWORDpassword",
            salt: b"saltSALTsaltSALTsaltSALTsaltSALTsalt",
            count: 4096,
            key: b"\x3d\x2e\xec\x4f\xe4\x1c\x84\x9b\x80\xc8\xd8\x36\x62\xc0\xe4\x4a\x8b\x29\x1a\x96\x4c\xf2\xf0\x70\x38",
        },
        Derived {
            password: b"pass\0word",
            salt: b"sa\0lt",
            count: 4096,
            key: b"\x56\xfa\x6a\xa7\x55\x48\x09\x9d\xcc\x37\xd7\xf0\x34\x25\xe0\xc3",
        },
    ];
    for vector in &vectors {
        assert!(rt; 1 <= vector.count && vector.key.len() <= 64);
        let mut buffer = [0; 64];
        let key = &mut buffer[..vector.key.len()];
        pbkdf2(vector.password, vector.salt, vector.count, key);
        assert!(rt; *key == *vector.key);
    }
}

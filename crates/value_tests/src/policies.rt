//! Names and numbers of policies, and what they ask of passwords.

use kdb_base::{Blob, Etype, PlainKey, Refusal};
use policy_rules::passwords::classes_in;
use policy_rules::{
    Numbers, Policy, check_numbers, check_password, is_history, is_min_classes, is_min_length,
    is_policy_name, kept_sets, reused,
};
use std::test::*;

#[test]
fn names(rt: HostRuntime) {
    let long = [b'a'; 65];
    let right: [&[u8]; 5] = [b"std", b"A", b"9", b"a_b-c.d", &long[..64]];
    for name in &right {
        assert!(rt; is_policy_name(name), "{name:?}");
    }
    let wrong: [&[u8]; 7] = [b"", b".std", b"-std", b"_std", b"a b", b"a/b", &long];
    for name in &wrong {
        assert!(rt; !is_policy_name(name), "{name:?}");
    }
}

#[test]
fn passwords(rt: HostRuntime) -> Result<(), Fail> {
    let name = Blob::from_bytes(rt.alloc(), b"std")?;
    assert!(rt; is_policy_name(name.as_slice()));
    assert!(rt; is_min_length(8) && is_min_classes(3) && is_history(2));
    let policy = Policy::new(name, 0, 60, 8, 3, 2);
    let cases: [(&[u8], Result<(), Refusal>); 8] = [
        (b"Abc1234", Err(Refusal::PassTooShort)),
        (b"", Err(Refusal::PassTooShort)),
        (b"Abc12345", Ok(())),
        (b"abcd1234", Err(Refusal::PassClasses)),
        (b"Xyz98765", Ok(())),
        (b"abcd123!", Ok(())),
        (b"abcd123 ", Ok(())),
        (b"\xc3\xa4\xc3\xb6 \x7f  ", Err(Refusal::PassClasses)),
    ];
    for (password, want) in &cases {
        assert_eq!(rt; check_password(&policy, password), *want, "{password:?}");
    }
    let none = Numbers::without_policy();
    assert_eq!(rt; check_numbers(&none, b""), Err(Refusal::PassTooShort));
    assert_eq!(rt; check_numbers(&none, b"\0"), Ok(()));
    assert_eq!(rt; policy.name(), b"std".as_slice());
    assert_eq!(rt; (policy.max_life(), policy.min_life()), (0, 60));
    assert_eq!(rt;
        (policy.min_length(), policy.min_classes(), policy.history()),
        (8, 3, 2)
    );
    Ok(())
}

#[test]
fn equal_policies(rt: HostRuntime) -> Result<(), Fail> {
    let name = Blob::from_bytes(rt.alloc(), b"p")?;
    let same = Blob::from_bytes(rt.alloc(), b"p")?;
    let other = Blob::from_bytes(rt.alloc(), b"p")?;
    assert!(rt; is_policy_name(name.as_slice()) && is_policy_name(same.as_slice()));
    assert!(rt; is_policy_name(other.as_slice()));
    let policy = Policy::from_numbers(name, Numbers::without_policy());
    assert!(rt; policy == Policy::new(same, 0, 0, 1, 1, 1));
    assert!(rt; policy != Policy::new(other, 0, 0, 1, 1, 2));
    Ok(())
}

#[test]
fn classes(rt: HostRuntime) {
    let cases: [(&[u8], usize); 5] = [
        (b"", 0),
        (b"az", 1),
        (b"aZ09", 3),
        (b"aA0~", 4),
        (b"aA0!\x1f", 5),
    ];
    for (password, want) in &cases {
        assert_eq!(rt; classes_in(password), *want, "{password:?}");
    }
}

#[test]
fn ranges(rt: HostRuntime) {
    for (n, length, classes, history) in [
        (0, false, false, false),
        (1, true, true, true),
        (5, true, true, true),
        (6, true, false, true),
        (16, true, false, true),
        (17, true, false, false),
        (255, true, false, false),
        (256, false, false, false),
    ] {
        assert_eq!(rt; is_min_length(n), length, "at {n}");
        assert_eq!(rt; is_min_classes(n), classes, "at {n}");
        assert_eq!(rt; is_history(n), history, "at {n}");
    }
}

#[test]
fn reuse(rt: HostRuntime) {
    let short = PlainKey::from_bytes(Etype::Aes128, &[7; 16]);
    let mut bytes = [0; 32];
    bytes[..16].copy_from_slice(&[7; 16]);
    // The same bytes as they are kept, of another type.
    let long = PlainKey::from_bytes(Etype::Aes256, &bytes);
    assert!(rt; reused(&[short], &[short], &[]));
    assert!(rt; reused(&[long, short], &[], &[short]));
    assert!(rt; !reused(&[long], &[short], &[short]));
    assert!(rt; !reused(&[], &[short], &[short]));
    assert_eq!(rt;
        (kept_sets(1, 3), kept_sets(3, 3), kept_sets(9, 3)),
        (0, 2, 3)
    );
}

//! Activations that are set and dropped, and which version of the master key is active at a second.

use kdb_base::{Activation, Activations};
use key_activation::{active_at, drop_version, set};
use std::test::*;

// A version, and the seconds from which on it may be active.
type Setting = (u16, u32);

// What these settings give, one after the other.
#[tactic(auto, using(key_activation::proofs::Order::empty_rises))]
fn list_of(rt: &HostRuntime, settings: &[Setting]) -> Result<Activations, Fail> {
    let alloc = rt.alloc();
    let mut list = Activations::from_vec(Vec::new(alloc));
    for (version, secs) in settings {
        // No setting of a test has version 0.
        if *version >= 1 {
            set(alloc, &mut list, *version, *secs)?;
        }
    }
    Ok(list)
}

#[test]
fn active_versions(rt: HostRuntime) -> Result<(), Fail> {
    let two: &[Setting] = &[(1, 100), (3, 200)];
    let cases: [(&[Setting], u32, Option<u16>); 11] = [
        (&[], 100, None),
        (two, 99, None),
        (two, 100, Some(1)),
        (two, 199, Some(1)),
        (two, 200, Some(3)),
        (two, 4_294_967_295, Some(3)),
        (&[(2, 300), (5, 300)], 300, Some(5)),
        (&[(5, 300), (2, 300)], 300, Some(5)),
        (&[(2, 300), (5, 301)], 300, Some(2)),
        // The newest version goes back before the other.
        (&[(1, 100), (3, 200), (3, 50)], 60, Some(3)),
        (&[(1, 100), (3, 200), (3, 50)], 200, Some(1)),
    ];
    for (settings, secs, version) in &cases {
        let list = list_of(&rt, settings)?;
        assert_eq!(rt; active_at(&list, *secs), *version, "{settings:?} at {secs}");
    }
    Ok(())
}

#[test]
fn changes(rt: HostRuntime) -> Result<(), Fail> {
    let mut list = list_of(&rt, &[(3, 200), (1, 100), (7, 50), (3, 20)])?;
    let first = Activation {
        version: 1,
        secs: 100,
    };
    let third = Activation {
        version: 3,
        secs: 20,
    };
    let last = Activation {
        version: 7,
        secs: 50,
    };
    assert_eq!(rt; list.as_slice(), [first, third, last].as_slice());
    drop_version(&mut list, 3);
    assert_eq!(rt; list.as_slice(), [first, last].as_slice());
    drop_version(&mut list, 2);
    assert_eq!(rt; list.as_slice(), [first, last].as_slice());
    Ok(())
}

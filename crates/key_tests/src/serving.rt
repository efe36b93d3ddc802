use kdb_base::{
    Activation, Activations, Blob, Etype, Master, Masters, MemoryOut, PlainKey, Point, Time,
};
use kdb_plain::{PlainPrinc, PlainPrincs, PolicyList, State};
use plain_keys::{PlainItems, PlainSets};
use serving_versions::{Cause, cause_of, dead_versions, serving_masters};
use std::alloc::Global;
use std::process::Abort;
use std::test::Fail;
use tagged_data::StringAttributes;

/// A principal without keys.
fn bare(alloc: Global, name: &[u8], mkvno: u16) -> Result<PlainPrinc, MemoryOut> {
    Ok(PlainPrinc {
        name: Blob::from_bytes(alloc, name)?,
        attributes: 0,
        max_life: 0,
        max_renew: 0,
        expire: 0,
        pw_expire: 0,
        pw_changed: None,
        modified: 1700000000,
        modifier: Blob::from_bytes(alloc, b"admin/local@EXAMPLE.ORG")?,
        mkvno,
        keys: PlainItems::from_vec(Vec::new(alloc)),
        policy: None,
        old: PlainSets::from_vec(Vec::new(alloc)),
        strings: StringAttributes::new(alloc),
    })
}

/// The master keys of versions 1 and 2.
fn two_masters(alloc: Global) -> Result<Masters, MemoryOut> {
    let items = vec![in alloc;
        Master {
            version: 1,
            key: PlainKey::from_bytes(Etype::Aes128, &[1; 16]),
        },
        Master {
            version: 2,
            key: PlainKey::from_bytes(Etype::Aes128, &[2; 16]),
        },
    ]?;
    Ok(Masters::from_vec(items))
}

/// Version 1 is active from 100 on, and version 2 from 200 on.
fn two_activations(alloc: Global) -> Result<Activations, MemoryOut> {
    let items = vec![in alloc;
        Activation {
            version: 1,
            secs: 100,
        },
        Activation {
            version: 2,
            secs: 200,
        },
    ]?;
    Ok(Activations::from_vec(items))
}

fn push_bare(
    alloc: Global,
    princs: &mut Vec<PlainPrinc>,
    name: &[u8],
    mkvno: u16,
) -> Result<(), MemoryOut> {
    let princ = bare(alloc, name, mkvno)?;
    princs.push(princ)?;
    Ok(())
}

/// K/M under version 2, and two others under `mkvno`.
fn princs(alloc: Global, mkvno: u16) -> Result<PlainPrincs, Fail> {
    let mut princs = Vec::new(alloc);
    push_bare(alloc, &mut princs, b"K/M@EXAMPLE.ORG", 2)?;
    push_bare(alloc, &mut princs, b"alice@EXAMPLE.ORG", mkvno)?;
    push_bare(alloc, &mut princs, b"kadmin/history@EXAMPLE.ORG", mkvno)?;
    match PlainPrincs::from_vec(princs) {
        Some(princs) => Ok(princs),
        None => Err(Fail::from("the order of principals")),
    }
}

fn no_policies(alloc: Global) -> Result<PolicyList, Fail> {
    match PolicyList::from_vec(Vec::new(alloc)) {
        Some(policies) => Ok(policies),
        None => Err(Fail::from("no policies")),
    }
}

/// The two master keys, and when each is active.
fn versions(alloc: Global) -> Result<(Masters, Activations), MemoryOut> {
    let masters = two_masters(alloc)?;
    let activations = two_activations(alloc)?;
    Ok((masters, activations))
}

/// K/M under version 2, and two others under `mkvno`, of two master keys.
fn state(alloc: Global, mkvno: u16) -> Result<State, Fail> {
    let realm = Blob::from_bytes(alloc, b"EXAMPLE.ORG")?;
    let (masters, activations) = versions(alloc)?;
    let policies = no_policies(alloc)?;
    let princs = princs(alloc, mkvno)?;
    Ok(State {
        realm,
        masters,
        activations,
        princs,
        policies,
        point: Point {
            sno: 1,
            time: Time::new(1700000000, 0),
        },
    })
}

/// The version of the principals, a second, and the causes of versions 1 and 2 then.
type Row = (u16, u32, Option<Cause>, Option<Cause>);

fn check_causes(rt: &impl Abort, alloc: Global, row: &Row) -> Result<(), Fail> {
    let (mkvno, secs, first, second) = row;
    let state = state(alloc, *mkvno)?;
    assert_eq!(rt; cause_of(&state, *secs, 1), *first, "1 at {secs}");
    assert_eq!(rt; cause_of(&state, *secs, 2), *second, "2 at {secs}");
    Ok(())
}

/// Version 1 serves no more.
fn check_dead(rt: &impl Abort, alloc: Global, state: &State) -> Result<(), Fail> {
    let dead = dead_versions(alloc, state, 300)?;
    assert_eq!(rt; dead.as_slice(), [1].as_slice());
    let serving = serving_masters(alloc, state, 300)?;
    assert_eq!(rt; serving.as_slice().len(), 1);
    Ok(())
}

#[test]
fn versions_serve_by_their_causes(rt: HostRuntime) -> Result<(), Fail> {
    let alloc = rt.alloc();
    let rows: [Row; 5] = [
        (1, 300, Some(Cause::Protects(2)), Some(Cause::Active)),
        (2, 300, None, Some(Cause::Protects(2))),
        (2, 199, Some(Cause::Active), Some(Cause::Protects(2))),
        (1, 199, Some(Cause::Protects(2)), Some(Cause::Newest)),
        (2, 99, Some(Cause::Pending), Some(Cause::Protects(2))),
    ];
    for row in &rows {
        check_causes(&rt, alloc, row)?;
    }
    let state = state(alloc, 2)?;
    check_dead(&rt, alloc, &state)
}

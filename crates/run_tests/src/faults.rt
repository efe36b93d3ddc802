//! Faults of the source, the sink, the source of random bytes and the disk, and crashes.

use crate::keys::versions;
use crate::masters::ROLLED;
use crate::runs::{
    Faults, NO_FAULTS, Outcome, SECS, check, check_end, check_outcome, check_turns, created,
    dumped, empty_disk, run, run_at,
};
use kdb_base::{Status, Time};
use kdb_disk::{FILES, MemoryDisk, Pick, replace_file};
use std::alloc::Global;
use std::process::Abort;
use std::test::Fail;

/// Three lines, of which the second and the third are refused.
const THREE_LINES: &[u8] = b"addprinc -nokey alice\naddprinc -nokey alice\nfrob\n";

const ONE_LINE: &[u8] = b"addprinc -nokey alice\n";

const FIRST_READ: Faults<'static> = Faults {
    source: &[0],
    ..NO_FAULTS
};

const SECOND_READ: Faults<'static> = Faults {
    source: &[1],
    ..NO_FAULTS
};

const SECOND_WRITE: Faults<'static> = Faults {
    sink: &[1],
    ..NO_FAULTS
};

fn check_faults(rt: &impl Abort, alloc: Global, disk: &mut MemoryDisk) -> Result<(), Fail> {
    let read = Status::ReadFault;
    check_outcome(
        rt,
        alloc,
        disk,
        "admin",
        THREE_LINES,
        &FIRST_READ,
        read,
        b"",
    )?;
    let written = Status::WriteFault;
    let added = b"ok 2 1700000000.000000\n";
    check_outcome(
        rt,
        alloc,
        disk,
        "admin",
        THREE_LINES,
        &SECOND_WRITE,
        written,
        added,
    )?;
    let refused = b"err 1 BadLine\n";
    check_outcome(
        rt,
        alloc,
        disk,
        "admin",
        b"frob\n",
        &SECOND_READ,
        read,
        refused,
    )
}

#[test]
fn a_fault_of_the_source_or_the_sink_ends_the_run(rt: HostRuntime) -> Result<(), Fail> {
    let mut disk = created(rt.alloc(), &[])?;
    check_faults(&rt, rt.alloc(), &mut disk)
}

const NO_BYTES: Faults<'static> = Faults {
    draws: &[0],
    ..NO_FAULTS
};

/// A run without random bytes, its status and its replies.
fn check_undrawn(
    rt: &impl Abort,
    alloc: Global,
    disk: &mut MemoryDisk,
    words: &str,
    input: &[u8],
    status: Status,
    replies: &[u8],
) -> Result<(), Fail> {
    check_outcome(rt, alloc, disk, words, input, &NO_BYTES, status, replies)
}

fn check_nothing_made(rt: &impl Abort, alloc: Global) -> Result<(), Fail> {
    let mut disk = empty_disk(alloc, &[])?;
    let words = "create EXAMPLE.ORG";
    check_undrawn(rt, alloc, &mut disk, words, b"", Status::ReadFault, b"")?;
    let reply = b"err 20 NotADatabase\n";
    check_undrawn(rt, alloc, &mut disk, "admin", b"", Status::Refused, reply)
}

fn check_nothing_done(rt: &impl Abort, alloc: Global) -> Result<(), Fail> {
    let mut disk = created(alloc, &[])?;
    let lines = b"frob\ngetprivs\n";
    let reply = b"err 1 BadLine\n";
    check_undrawn(
        rt,
        alloc,
        &mut disk,
        "admin",
        lines,
        Status::ReadFault,
        reply,
    )
}

#[test]
fn without_random_bytes_nothing_is_done(rt: HostRuntime) -> Result<(), Fail> {
    check_nothing_made(&rt, rt.alloc())?;
    check_nothing_done(&rt, rt.alloc())
}

/// How many calls of the disk a database and then this line take.
fn count_calls(alloc: Global) -> Result<(u64, u64), Fail> {
    let mut disk = created(alloc, &[])?;
    let before = disk.calls();
    run(alloc, &mut disk, "admin", ONE_LINE, &NO_FAULTS)?;
    Ok((before, disk.calls()))
}

/// Whether a next run adds the principal, or finds it there.
fn check_whole_or_none(rt: &impl Abort, alloc: Global, disk: &mut MemoryDisk) -> Result<(), Fail> {
    let next = run(alloc, disk, "admin", ONE_LINE, &NO_FAULTS)?;
    let added = next.replies.as_slice() == b"ok 2 1700000000.000000\n".as_slice();
    let there = next.replies.as_slice() == b"err 3 Duplicate\n".as_slice();
    assert!(rt; added || there);
    Ok(())
}

fn check_failed_call(rt: &impl Abort, alloc: Global, call: u64) -> Result<(), Fail> {
    let mut disk = created(alloc, &[call])?;
    let failed = Status::DiskFault;
    check_outcome(
        rt, alloc, &mut disk, "admin", ONE_LINE, &NO_FAULTS, failed, b"",
    )?;
    check_whole_or_none(rt, alloc, &mut disk)
}

#[test]
fn a_fault_of_the_disk_leaves_the_change_whole_or_none_of_it(rt: HostRuntime) -> Result<(), Fail> {
    let (before, after) = count_calls(rt.alloc())?;
    for call in before..after {
        check_failed_call(&rt, rt.alloc(), call)?;
    }
    Ok(())
}

/// What a new opening answers to these lines, after a crash inside of a call of the disk; nothing where there
/// was no such call.
fn after_crash(
    alloc: Global,
    disk: &MemoryDisk,
    call: u64,
    pick: Pick,
    input: &[u8],
) -> Result<Option<Outcome>, Fail> {
    if call < disk.calls() {
        let mut image = disk.image_at(alloc, call, pick)?;
        return Ok(Some(run(alloc, &mut image, "admin", input, &NO_FAULTS)?));
    }
    Ok(None)
}

/// Whether it is one of these two, where there was such a call.
fn leaves_either(
    alloc: Global,
    disk: &MemoryDisk,
    call: u64,
    pick: Pick,
    input: &[u8],
    before: &[u8],
    after: &[u8],
) -> Result<bool, Fail> {
    if let Some(found) = after_crash(alloc, disk, call, pick, input)? {
        let replies = found.replies.as_slice();
        return Ok(replies == before || replies == after);
    }
    Ok(true)
}

/// Looks at what a crash inside of this call leaves: one of the two replies.
fn check_crash(
    rt: &impl Abort,
    alloc: Global,
    disk: &MemoryDisk,
    call: u64,
    input: &[u8],
    before: &[u8],
    after: &[u8],
) -> Result<(), Fail> {
    for pick in [Pick::Written, Pick::Old, Pick::Noise] {
        let either = leaves_either(alloc, disk, call, pick, input, before, after)?;
        assert!(rt; either);
    }
    Ok(())
}

/// The same inside of each of the calls from this one on.
fn check_crashes(
    rt: &impl Abort,
    alloc: Global,
    disk: &MemoryDisk,
    first: u64,
    input: &[u8],
    before: &[u8],
    after: &[u8],
) -> Result<(), Fail> {
    for call in first..disk.calls() {
        check_crash(rt, alloc, disk, call, input, before, after)?;
    }
    Ok(())
}

fn check_made_and_ended(rt: &impl Abort, alloc: Global, disk: &mut MemoryDisk) -> Result<(), Fail> {
    let none = b"err 20 NotADatabase\n";
    check_crashes(rt, alloc, disk, 0, b"listpols\n", none, b"ok\n")?;
    let first = disk.calls();
    let done = Status::Done;
    check_outcome(rt, alloc, disk, "destroy", b"", &NO_FAULTS, done, b"ok\n")?;
    check_crashes(rt, alloc, disk, first, b"listpols\n", b"ok\n", none)
}

#[test]
fn a_crash_leaves_a_database_made_or_none(rt: HostRuntime) -> Result<(), Fail> {
    let mut disk = created(rt.alloc(), &[])?;
    check_made_and_ended(&rt, rt.alloc(), &mut disk)
}

/// The keys of alice before and after a new one, with the random bytes of ChaCha20 under zeros.
const OLD_KEY: &[u8] = b"- key 1 aes128-cts-hmac-sha1-96 91e79f5f1b27517820bc5d2cfd26b2f5\nok\n";

const NEW_KEY: &[u8] = b"- key 2 aes128-cts-hmac-sha1-96 76b8e0ada0f13d90405d6ae55386bd28\nok\n";

/// A run of `admin` with this line, which is done.
fn check_done(
    rt: &impl Abort,
    alloc: Global,
    disk: &mut MemoryDisk,
    line: &[u8],
    reply: &[u8],
) -> Result<(), Fail> {
    let done = Status::Done;
    check_outcome(rt, alloc, disk, "admin", line, &NO_FAULTS, done, reply)
}

fn check_new_key(rt: &impl Abort, alloc: Global, disk: &mut MemoryDisk) -> Result<(), Fail> {
    let first = disk.calls();
    let line = b"cpw -randkey -e aes128-cts alice\n";
    check_done(rt, alloc, disk, line, b"ok 3 1700000000.000000\n")?;
    check_crashes(rt, alloc, disk, first, b"extract alice\n", OLD_KEY, NEW_KEY)?;
    check_done(rt, alloc, disk, b"extract alice\n", NEW_KEY)
}

#[test]
fn a_crash_leaves_the_old_keys_or_the_new_ones(rt: HostRuntime) -> Result<(), Fail> {
    let mut disk = created(rt.alloc(), &[])?;
    let line = b"addprinc -pw s3cret -e aes128-cts alice\n";
    run(rt.alloc(), &mut disk, "admin", line, &NO_FAULTS)?;
    check_new_key(&rt, rt.alloc(), &mut disk)
}

// ---- each call of each device

/// What fails.
#[derive(Clone, Copy)]
enum Device {
    Source,
    Sink,
    Entropy,
    Disk,
}

const DEVICES: [Device; 4] = [Device::Source, Device::Sink, Device::Entropy, Device::Disk];

fn status_of(device: Device) -> Status {
    match device {
        Device::Source | Device::Entropy => Status::ReadFault,
        Device::Sink => Status::WriteFault,
        Device::Disk => Status::DiskFault,
    }
}

/// Those of these calls that are the disk's.
fn disk_calls<'a>(device: Device, calls: &'a [u64]) -> &'a [u64] {
    match device {
        Device::Disk => calls,
        _ => &[],
    }
}

/// Those that are another device's.
fn faults_of<'a>(device: Device, calls: &'a [u64]) -> Faults<'a> {
    match device {
        Device::Source => Faults {
            source: calls,
            sink: &[],
            draws: &[],
        },
        Device::Sink => Faults {
            source: &[],
            sink: calls,
            draws: &[],
        },
        Device::Entropy => Faults {
            source: &[],
            sink: &[],
            draws: calls,
        },
        Device::Disk => NO_FAULTS,
    }
}

/// A run that is repeated over the same files, each time with a fault at another call.
#[derive(Clone, Copy)]
struct Case<'a> {
    words: &'a str,
    input: &'a [u8],
    /// The second at which the clock stands.
    secs: u32,
    /// The lines by which a next run of `admin` looks at what was done.
    look: &'a [u8],
    /// What they may be answered: how many of the input's lines are done then, and the replies.
    states: &'a [(u32, &'a [u8])],
}

fn copy_files(copy: &mut MemoryDisk, disk: &MemoryDisk) -> Result<(), Fail> {
    for file in 0..FILES {
        replace_file(copy, file, disk.bytes(file))?;
    }
    Ok(())
}

/// The same files on a disk of their own, of which these calls are to fail.
fn copied(alloc: Global, disk: &MemoryDisk, calls: &[u64]) -> Result<MemoryDisk, Fail> {
    let mut copy = empty_disk(alloc, calls)?;
    copy_files(&mut copy, disk)?;
    Ok(copy)
}

/// How many lines were answered.
fn count_answers(replies: &[u8]) -> u32 {
    let mut count = 0u32;
    for line in replies.split(|byte| *byte == b'\n') {
        if line.starts_with(b"ok") || line.starts_with(b"err") {
            count = count.saturating_add(1);
        }
    }
    count
}

fn run_case(
    alloc: Global,
    disk: &mut MemoryDisk,
    case: &Case,
    faults: &Faults,
) -> Result<Outcome, Fail> {
    let now = Time::new(case.secs, 0);
    run_at(alloc, disk, case.words, case.input, faults, now)
}

/// Whether these replies tell that so many lines are done, or more.
fn tells_of(case: &Case, count: u32, found: &[u8]) -> bool {
    for (done, replies) in case.states.iter() {
        if *done >= count && found == *replies {
            return true;
        }
    }
    false
}

/// Whether a next run without faults finds so many lines done, or more.
fn are_done(alloc: Global, disk: &mut MemoryDisk, case: &Case, count: u32) -> Result<bool, Fail> {
    let now = Time::new(case.secs, 0);
    let found = run_at(alloc, disk, "admin", case.look, &NO_FAULTS, now)?;
    Ok(tells_of(case, count, &found.replies))
}

/// Whether what was answered is done. The next run has a disk of its own: where the one before went
/// through, the fault would be the next run's.
fn stays_done(alloc: Global, disk: &MemoryDisk, case: &Case, replies: &[u8]) -> Result<bool, Fail> {
    let mut later = copied(alloc, disk, &[])?;
    are_done(alloc, &mut later, case, count_answers(replies))
}

/// Whether the run failed. Its replies are a front of those of the run without faults.
fn has_failed(rt: &impl Abort, outcome: &Outcome, device: Device, whole: &Outcome) -> bool {
    let failed = outcome.status == status_of(device);
    if !failed {
        check(rt, outcome, whole.status, &whole.replies);
    }
    assert!(rt; whole.replies.starts_with(&outcome.replies));
    failed
}

/// The run with a fault at this call of the device, over a disk whose calls fail so, and whether it
/// failed. What was answered is done.
fn fails_over(
    rt: &impl Abort,
    alloc: Global,
    disk: &mut MemoryDisk,
    case: &Case,
    device: Device,
    call: u64,
    whole: &Outcome,
) -> Result<bool, Fail> {
    let calls = [call];
    let outcome = run_case(alloc, disk, case, &faults_of(device, &calls))?;
    let failed = has_failed(rt, &outcome, device, whole);
    let stays = stays_done(alloc, disk, case, &outcome.replies)?;
    assert!(rt; stays);
    Ok(failed)
}

/// The run with a fault at this call of the device. Its replies are a front of those of the run without faults, and
/// what was answered is done. Answers whether there was such a call.
fn fails_at(
    rt: &impl Abort,
    alloc: Global,
    base: &MemoryDisk,
    case: &Case,
    device: Device,
    call: u64,
    whole: &Outcome,
) -> Result<bool, Fail> {
    let calls = [call];
    let mut disk = copied(alloc, base, disk_calls(device, &calls))?;
    fails_over(rt, alloc, &mut disk, case, device, call, whole)
}

/// The run without faults, and the first call of the device in it.
fn whole_run(
    alloc: Global,
    base: &MemoryDisk,
    case: &Case,
    device: Device,
) -> Result<(Outcome, u64), Fail> {
    let mut disk = copied(alloc, base, &[])?;
    let first = match device {
        Device::Disk => disk.calls(),
        _ => 0,
    };
    let whole = run_case(alloc, &mut disk, case, &NO_FAULTS)?;
    Ok((whole, first))
}

/// Each call of the device from this one on fails in turn, until the run goes through.
fn check_calls(
    rt: &impl Abort,
    alloc: Global,
    base: &MemoryDisk,
    case: &Case,
    device: Device,
    first: u64,
    whole: &Outcome,
) -> Result<(), Fail> {
    for call in first..first.saturating_add(1000) {
        if !fails_at(rt, alloc, base, case, device, call, whole)? {
            return Ok(());
        }
    }
    Err(Fail::from("a run that goes through"))
}

fn check_device(
    rt: &impl Abort,
    alloc: Global,
    base: &MemoryDisk,
    case: &Case,
    device: Device,
) -> Result<(), Fail> {
    let (whole, first) = whole_run(alloc, base, case, device)?;
    check_calls(rt, alloc, base, case, device, first, &whole)
}

fn check_devices(
    rt: &impl Abort,
    alloc: Global,
    base: &MemoryDisk,
    case: &Case,
) -> Result<(), Fail> {
    for device in DEVICES {
        check_device(rt, alloc, base, case, device)?;
    }
    Ok(())
}

const ADDED: Case<'static> = Case {
    words: "admin",
    input: b"addprinc -pw s3cret alice\ngetprinc alice\n",
    secs: SECS,
    look: b"getprinc alice\n",
    states: &[
        (0, b"err 4 UnknownPrincipal\n"),
        (
            2,
            b"- principal alice@EXAMPLE.ORG\n- expires never\n- pwexpires never\n\
- pwchanged 2023-11-14T22:13:20Z\n- maxlife 0\n- maxrenewlife 0\n\
- modified 2023-11-14T22:13:20Z admin/local@EXAMPLE.ORG\n- mkvno 1\n- flags none\n- policy -\n\
- key 1 aes256-cts-hmac-sha1-96 normal\n- key 1 aes128-cts-hmac-sha1-96 normal\nok\n",
        ),
    ],
};

#[test]
fn faults_while_a_principal_is_added_and_shown(rt: HostRuntime) -> Result<(), Fail> {
    let base = created(rt.alloc(), &[])?;
    check_devices(&rt, rt.alloc(), &base, &ADDED)
}

/// The first line begins the log anew for its long entry, and for the second there is no room in the record.
const LENGTHENED: Case<'static> = Case {
    words: "admin",
    input: b"cpw -randkey -keepold svc\ncpw -randkey -keepold svc\n",
    secs: SECS,
    look: b"cpw -randkey -keepold svc\n",
    states: &[(0, b"ok 2 1700000000.000001\n"), (2, b"err 28 KeysFull\n")],
};

fn make_versions(rt: &impl Abort, alloc: Global, base: &mut MemoryDisk) -> Result<(), Fail> {
    let lines = versions(alloc, b"svc", 15)?;
    let last = b"\nok 16 1700000000.000000\n";
    check_end(rt, alloc, base, &lines, last)
}

#[test]
fn faults_while_the_log_is_begun_anew(rt: HostRuntime) -> Result<(), Fail> {
    let mut base = created(rt.alloc(), &[])?;
    make_versions(&rt, rt.alloc(), &mut base)?;
    check_devices(&rt, rt.alloc(), &base, &LENGTHENED)
}

/// The three principals are rekeyed one by one, and what none of them needs any more is deleted.
const REKEYED: Case<'static> = Case {
    words: "admin",
    input: b"update_princ_encryption\nstash\npurge_mkeys\nlist_mkeys\n",
    secs: 1_700_003_600,
    look: b"update_princ_encryption\nuse_mkey 2\n",
    states: &[
        (
            0,
            b"ok 3 principals processed: 3 updated, 0 already current, 0 gone\n\
ok 9 1700003600.000000 mkvno 2 from 2023-11-14T23:13:20Z\n",
        ),
        (
            0,
            b"ok 3 principals processed: 2 updated, 1 already current, 0 gone\n\
ok 9 1700003600.000000 mkvno 2 from 2023-11-14T23:13:20Z\n",
        ),
        (
            0,
            b"ok 3 principals processed: 1 updated, 2 already current, 0 gone\n\
ok 9 1700003600.000000 mkvno 2 from 2023-11-14T23:13:20Z\n",
        ),
        (
            2,
            b"ok 3 principals processed: 0 updated, 3 already current, 0 gone\n\
ok 9 1700003600.000000 mkvno 2 from 2023-11-14T23:13:20Z\n",
        ),
        (
            4,
            b"ok 3 principals processed: 0 updated, 3 already current, 0 gone\n\
err 16 UnknownMaster 2\n",
        ),
    ],
};

#[test]
fn faults_while_master_keys_are_replaced(rt: HostRuntime) -> Result<(), Fail> {
    let mut base = created(rt.alloc(), &[])?;
    check_turns(&rt, rt.alloc(), &mut base, "admin", &ROLLED)?;
    check_devices(&rt, rt.alloc(), &base, &REKEYED)
}

/// Whether the row of alice is there.
const LOADED: [(u32, &[u8]); 2] = [(0, b"ok 2 1700000000.000000\n"), (1, b"err 3 Duplicate\n")];

/// The dump of a database with alice.
fn dump_with_alice(alloc: Global) -> Result<Vec<u8>, Fail> {
    let mut other = created(alloc, &[])?;
    run(alloc, &mut other, "admin", ONE_LINE, &NO_FAULTS)?;
    dumped(alloc, &mut other)
}

fn check_loading(rt: &impl Abort, alloc: Global, dump: &[u8]) -> Result<(), Fail> {
    let base = created(alloc, &[])?;
    let loading = Case {
        words: "load",
        input: dump,
        secs: SECS,
        look: ONE_LINE,
        states: &LOADED,
    };
    check_devices(rt, alloc, &base, &loading)
}

#[test]
fn faults_while_rows_are_loaded(rt: HostRuntime) -> Result<(), Fail> {
    let dump = dump_with_alice(rt.alloc())?;
    check_loading(&rt, rt.alloc(), &dump)
}

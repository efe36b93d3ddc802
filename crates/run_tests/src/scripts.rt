//! Scripts that are made and run, as words.

use crate::runs::{Answer, check_answers, empty_disk};
use std::test::Fail;

const TWENTY: &[u8] = b"- lines 20\n- accepted 14\n- refused 6\n- principals 10\n- keys 16\n\
ok 15 1700000000.000000\n";

const THOUSAND: &[u8] = b"- lines 1000\n- accepted 805\n- refused 195\n- principals 61\n- keys 76\n\
ok 806 1700000000.000000\n";

/// The folder stays without a database.
const SCRIPTS: [Answer; 8] = [
    ("generate 7 20", TWENTY),
    ("generate -- 7 20", TWENTY),
    ("generate 7 1000", THOUSAND),
    ("generate 4294967296 20", b"err 13 BadValue seed\n"),
    ("generate 7 0", b"err 13 BadValue count\n"),
    ("generate 7 1001", b"err 13 BadValue count\n"),
    ("generate 7", b"err 1 BadLine\n"),
    ("report keys", b"err 20 NotADatabase\n"),
];

#[test]
fn scripts_of_a_seed(rt: HostRuntime) -> Result<(), Fail> {
    let mut disk = empty_disk(rt.alloc(), &[])?;
    check_answers(&rt, rt.alloc(), &mut disk, &SCRIPTS)
}

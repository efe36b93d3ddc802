//! Which changes may be made of rows.

use kdb_base::Blob;
use kdb_places::may_apply;
use princ_rows::{Op, Rows};
use std::test::*;

#[test]
fn a_drop_may_always_be_made(rt: HostRuntime) -> Result<(), Fail> {
    let alloc = rt.alloc();
    let rows = match Rows::from_vecs(Vec::new(alloc), Vec::new(alloc)) {
        Some(rows) => rows,
        None => return Ok(()),
    };
    let op = Op::DropPrinc(Blob::from_bytes(alloc, b"alice@EXAMPLE.ORG")?);
    assert!(rt; may_apply(&rows, &op));
    Ok(())
}

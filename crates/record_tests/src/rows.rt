ghost use Rattle.std.specs.Prelude.{Some, IfOk};
ghost use Rattle.princ_name.specs.Printed.{IsPrinted};
ghost use Rattle.princ_record.specs.RowLimits.{IsRow};
ghost use Rattle.princ_rows.specs.Entries.{IsOp};
ghost use Rattle.princ_rows.specs.Undoing.{IsBegun, IsNewName};

use kdb_base::Blob;
use kdb_base::limits::MAX_ROW_LEN;
use princ_record::{Princ, decode, encoded_len};
use princ_rows::{Begun, Op, Rows};
use std::alloc::Global;
use std::process::Abort;
use std::test::*;

// Behind the name: no attributes, four numbers of lives, a modification of 1700000000, no keys, no policy,
// and nothing remembered.
const BEHIND: &[u8] =
    b"\0\0\0\0\0\0\0\0\0\0\0\0\0\0\0\0\0\0\0\0\0\x02\0\x02\0\x08\0\xf1\x53\x65a@R\0\0\x08\0\x02\x01\0\0\0\0\0\0\0";

fn princ_named(alloc: Global, name: &[u8]) -> Result<Princ, Fail>
    ensures { IfOk result (λ p. IsRow p) }
{
    let mut bytes = Vec::new(alloc);
    bytes.extend_from_slice(name)?;
    bytes.extend_from_slice(BEHIND)?;
    let princ = decode(alloc, &bytes)?;
    if encoded_len(&princ) > MAX_ROW_LEN {
        drop(princ);
        return Err(Fail::from("too long"));
    }
    Ok(princ)
}

/// Begins the change where there is room for it.
fn begun(rows: &mut Rows, op: Op) -> Result<Begun, Fail>
    requires op { IsOp (Some op) }
    requires name { IsNewName op rows.old }
    ensures { IfOk result (λ b. IsBegun b rows.new) }
{
    if !rows.has_room_for(&op) {
        drop(op);
        return Err(Fail::from("no room"));
    }
    Ok(rows.begin(op)?)
}

fn renaming(rows: &mut Rows, old: Blob, princ: Princ) -> Result<Begun, Fail>
    requires old { IsPrinted old }
    requires row { IsRow princ }
    ensures { IfOk result (λ b. IsBegun b rows.new) }
{
    if rows.princ(princ.name.as_slice()).is_some() {
        drop(princ);
        return Err(Fail::from("the new name is there"));
    }
    begun(rows, Op::Rename(old, princ))
}

fn names_are(rows: &Rows, names: &[&[u8]]) -> bool {
    rows.princs().len() == names.len()
        && rows
            .princs()
            .iter()
            .zip(names)
            .all(|(row, name)| row.get().name.as_slice() == *name)
}

fn add(alloc: Global, rows: &mut Rows, name: &[u8]) -> Result<(), Fail> {
    let princ = princ_named(alloc, name)?;
    let put = begun(rows, Op::PutPrinc(princ))?;
    rows.finish(put);
    Ok(())
}

fn check_put(rt: &impl Abort, alloc: Global, rows: &mut Rows) -> Result<(), Fail> {
    let princ = princ_named(alloc, b"\0\x03c@R")?;
    let put = begun(rows, Op::PutPrinc(princ))?;
    assert!(rt; names_are(rows, &[b"b@R", b"c@R", b"d@R"]));
    rows.undo(put);
    assert!(rt; names_are(rows, &[b"b@R", b"d@R"]));
    Ok(())
}

fn check_rename(rt: &impl Abort, alloc: Global, rows: &mut Rows) -> Result<(), Fail> {
    let old = princ_named(alloc, b"\0\x03d@R")?.name;
    let princ = princ_named(alloc, b"\0\x03a@R")?;
    let rename = renaming(rows, old, princ)?;
    assert!(rt; names_are(rows, &[b"a@R", b"b@R"]));
    rows.undo(rename);
    assert!(rt; names_are(rows, &[b"b@R", b"d@R"]));
    Ok(())
}

fn check_drop(rt: &impl Abort, alloc: Global, rows: &mut Rows) -> Result<(), Fail> {
    let name = princ_named(alloc, b"\0\x03b@R")?.name;
    let drop = begun(rows, Op::DropPrinc(name))?;
    assert_eq!(rt; drop.dropped_princ(), Some(b"b@R".as_slice()));
    assert!(rt; names_are(rows, &[b"b@R", b"d@R"]));
    rows.finish(drop);
    assert!(rt; names_are(rows, &[b"d@R"]));
    Ok(())
}

fn check_changes(rt: &impl Abort, alloc: Global, rows: &mut Rows) -> Result<(), Fail> {
    add(alloc, rows, b"\0\x03b@R")?;
    add(alloc, rows, b"\0\x03d@R")?;
    check_put(rt, alloc, rows)?;
    check_rename(rt, alloc, rows)?;
    check_drop(rt, alloc, rows)
}

#[test]
fn a_change_is_finished_or_taken_back(rt: HostRuntime) -> Result<(), Fail> {
    let alloc = rt.alloc();
    let mut rows = Rows::from_vecs(Vec::new(alloc), Vec::new(alloc)).ok_or("no rows")?;
    check_changes(&rt, alloc, &mut rows)
}

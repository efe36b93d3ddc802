//! A made script of lines, and how many of them are accepted.

use crate::databases::{Database, created, is_accepted};
use kdb_plain::State;
use std::alloc::Global;
use std::process::Abort;
use std::test::Fail;

/// The lines that the remainder of the line's number by 5 chooses, each before the number of a name, and by how much
/// that number grows with the quotient.
const KINDS: [(&str, u32); 5] = [
    ("addprinc -randkey p", 3),
    ("addprinc -nokey q", 3),
    ("cpw -randkey -keepold p", 3),
    ("modprinc +requires_preauth q", 5),
    ("delprinc p", 7),
];

/// The line of this number, by this seed.
fn line(alloc: Global, seed: u32, number: u32) -> Result<Vec<u8>, Fail> {
    let (front, step) = KINDS.get((number % 5) as usize).ok_or("a kind")?;
    let steps = step.wrapping_mul(number / 5 % 40);
    let name = (seed % 40).wrapping_add(steps) % 40;
    let mut line = front.as_bytes().to_vec(alloc)?;
    if name >= 10 {
        line.push(b'0' + (name / 10) as u8)?;
    }
    line.push(b'0' + (name % 10) as u8)?;
    Ok(line)
}

fn is_number_accepted(
    rt: &impl Abort,
    alloc: Global,
    database: &mut Database,
    seed: u32,
    number: u32,
) -> Result<bool, Fail> {
    let line = line(alloc, seed, number)?;
    is_accepted(rt, alloc, database, &line)
}

/// How many of so many lines are accepted.
fn accepted(
    rt: &impl Abort,
    alloc: Global,
    database: &mut Database,
    seed: u32,
    count: u32,
) -> Result<u32, Fail> {
    let mut accepted = 0u32;
    for number in 0..count {
        if is_number_accepted(rt, alloc, database, seed, number)? {
            accepted = accepted.saturating_add(1);
        }
    }
    Ok(accepted)
}

/// How many keys there are in the state.
fn keys_of_state(state: &State) -> usize {
    let mut keys = 0usize;
    for princ in state.princs.as_slice() {
        keys = keys.saturating_add(princ.keys.as_slice().len());
    }
    keys
}

/// How many keys there are in the rows.
fn keys_of_rows(database: &Database) -> usize {
    let mut keys = 0usize;
    for row in database.rows.princs() {
        keys = keys.saturating_add(row.get().keys.as_slice().len());
    }
    keys
}

/// So many lines, and how many are accepted, how many principals and keys there are then, and the last serial.
type Script = (u32, u32, usize, usize, u32);

const SCRIPTS: [Script; 2] = [(20, 14, 10, 16, 15), (1000, 805, 61, 76, 806)];

fn check_numbers(rt: &impl Abort, database: &Database, script: &Script) {
    let (_, _, princs, keys, sno) = script;
    let state = database.plain.state();
    assert_eq!(rt; state.princs.as_slice().len(), *princs);
    assert_eq!(rt; database.rows.princs().len(), *princs);
    assert_eq!(rt; keys_of_state(state), *keys);
    assert_eq!(rt; keys_of_rows(database), *keys);
    assert_eq!(rt; state.point.sno, *sno);
}

fn check_lines(
    rt: &impl Abort,
    alloc: Global,
    database: &mut Database,
    script: &Script,
) -> Result<(), Fail> {
    let (count, wanted, _, _, _) = script;
    let accepted = accepted(rt, alloc, database, 7, *count)?;
    assert_eq!(rt; accepted, *wanted);
    check_numbers(rt, database, script);
    Ok(())
}

fn check_script(rt: &impl Abort, alloc: Global, script: &Script) -> Result<(), Fail> {
    let mut database = created(alloc)?;
    check_lines(rt, alloc, &mut database, script)
}

#[test]
fn made_scripts_have_their_numbers(rt: HostRuntime) -> Result<(), Fail> {
    for script in &SCRIPTS {
        check_script(&rt, rt.alloc(), script)?;
    }
    Ok(())
}

//! How many records of other principals than K/M each version of the master key protects, counted in one pass.

ghost use Rattle.std.specs.Prelude.{◌≡◌, ◌+◌, ◌<◌, ◌^◌, IfOk, length, map, if◌then◌else◌};
ghost use Rattle.std.specs.List.{All};
ghost use Rattle.mkey_admin.specs.Counting.{noted, recorded};
ghost use Rattle.mkey_admin.specs.Told.{counts_of};

use command_plans::given::Given;
use kdb_base::{Master, MemoryOut};
use kdb_plain::is_master_name;
use princ_record::Princ;
use std::alloc::Global;

/// One more, where there is one.
fn counted(count: u32, is: bool) -> u32
    requires { count < 2 ^ 31 }
    ensures { result ≡ (if is then count + 1 else count) }
{
    if is { count + 1 } else { count }
}

/// One more of this version.
fn note(masters: &[Master], version: u16, counts: &mut [u32])
    requires length { length counts.old ≡ length masters.now }
    requires few { All (λ count. count < 2 ^ 31) counts.old }
    ensures { counts.new ≡ noted version masters.now counts.old }
{
    for at in 0..masters.len() {
        counts[at] = counted(counts[at], version == masters[at].version);
    }
}

/// As many zeros as there are master keys.
fn zeros(alloc: Global, masters: &[Master]) -> Result<Vec<u32>, MemoryOut>
    ensures { IfOk result (λ v. v.items ≡ map (λ _. 0) masters.now) }
{
    let mut counts = Vec::with_capacity(alloc, masters.len())?;
    for _ in masters {
        counts.push(0)?;
    }
    Ok(counts)
}

/// One more of this record's version, where it is none of K/M.
fn note_record(realm: &[u8], princ: &Princ, masters: &[Master], counts: &mut Vec<u32>)
    requires length { length counts.old.items ≡ length masters.now }
    requires few { All (λ count. count < 2 ^ 31) counts.old.items }
    ensures { counts.new.items ≡ recorded realm.now princ.now masters.now counts.old.items }
{
    if !is_master_name(realm, princ.name.as_slice()) {
        note(masters, princ.mkvno, counts);
    }
}

/// How many records each version protects.
#[tactic(auto, using(crate::proofs::Counts::none_counted, crate::proofs::Counts::counted_long, crate::proofs::Counts::counted_few, crate::proofs::Counts::row_counted))]
pub(crate) fn counts_of(alloc: Global, given: &Given) -> Result<Vec<u32>, MemoryOut>
    ensures { IfOk result
        (λ v. v.items ≡ counts_of given.now.realm.now given.now.rows.now.princs given.now.masters.now) }
{
    let masters = given.masters.as_slice();
    let mut counts = zeros(alloc, masters)?;
    for row in given.rows.princs() {
        note_record(given.realm, row.get(), masters, &mut counts);
    }
    Ok(counts)
}

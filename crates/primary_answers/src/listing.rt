//! The names of the principals that are to be rekeyed.

ghost use Rattle.std.specs.Prelude.{◌≡◌, false, IfOk};
ghost use Rattle.std.specs.List.{All};
ghost use Rattle.primary_answers.specs.Listing.{is_told, names_told};
ghost use Rattle.princ_name.specs.Printed.{is_master};
ghost use Rattle.princ_rows.specs.Rows.{princ_keys};
ghost use Rattle.tagged_data.specs.KeyOrder.{AreInOrder};

use kadm_commands::NameList;
use kadm_values::glob_matches;
use kdb_base::{Blob, MemoryOut};
use princ_name::is_master;
use princ_record::Princ;
use princ_rows::Boxed;
use std::alloc::Global;

// The names of principals, in their order.
fn princ_keys(alloc: Global, princs: &[Boxed<Princ>]) -> Result<Vec<Blob>, MemoryOut>
    ensures { IfOk result (λ names. names.items ≡ princ_keys princs.now) }
{
    let mut names = Vec::with_capacity(alloc, princs.len())?;
    for princ in princs {
        let name = Blob::from_bytes(alloc, princ.get().name.as_slice())?;
        names.push(name)?;
    }
    Ok(names)
}

// Whether the printed name is another than K/M's, and the glob matches it, where there is one.
fn is_told(glob: &Option<Blob>, name: &[u8]) -> bool
    ensures { result ≡ is_told glob.now name.now }
{
    if is_master(name) {
        return false;
    }
    match glob {
        Some(glob) => glob_matches(glob.as_slice(), name),
        None => true,
    }
}

// The names other than K/M's that the glob matches.
#[tactic(auto, unfolding(crate::specs::Listing::names_told))]
fn names_told(glob: &Option<Blob>, names: Vec<Blob>) -> Vec<Blob>
    ensures { result.items ≡ names_told glob.now names.items }
{
    let mut left = names;
    left.retain(|name| is_told(glob, name.as_slice()));
    left
}

/// The names of the principals other than K/M that the glob matches, or all without one, in their order.
///
/// # Errors
///
/// `MemoryOut` where memory is wanted and not given.
pub fn list_names(
    alloc: Global,
    princs: &[Boxed<Princ>],
    glob: &Option<Blob>,
) -> Result<NameList, MemoryOut>
    requires { AreInOrder (princ_keys princs.now) }
    ensures names { IfOk result (λ names. names ≡ names_told glob.now (princ_keys princs.now)) }
    ensures others { IfOk result (λ names. All (λ name. is_master name ≡ false) names) }
{
    let all = princ_keys(alloc, princs)?;
    let found = names_told(glob, all);
    Ok(NameList::from_vec(found))
}

//! `getprinc`, `getstrs` and `extract`.

ghost use Rattle.std.specs.Prelude.{◌≡◌, IfOk, Some, filter, map};
ghost use Rattle.kadm_commands.specs.declared.commands.Command.TheVariants as command;
ghost use Rattle.command_plans.specs.Given.{IsJudged};
ghost use Rattle.kdb_base.specs.Key.{Key};
ghost use Rattle.kdb_plain.specs.States.{master_of};
ghost use Rattle.plain_keys.specs.Keys.{extract_of, extracts, has_kvno};
ghost use Rattle.plain_keys.specs.declared.items.PlainItem.{PlainItem};
ghost use Rattle.std.specs.List.{AllZip};
ghost use Rattle.std.specs.Prelude.{List};
ghost use Rattle.row_keys.specs.Shows.{ShowsItem};

use crate::causes::{denial, first, found, lockdown, own_denial, present, protection};
use crate::given::Given;
use crate::planned::Planned;
use crate::shown_records::record_shown;
use kadm_commands::Reply;
use kdb_base::{Extract, ExtractList, MemoryOut, Refusal};
use kdb_plain::master_of;
use master_keys::MasterKey;
use plain_keys::{PlainItem, newest_kvno};
use princ_name::{Name, print_name};
use princ_record::Princ;
use row_keys::open_items;
use std::alloc::Global;
use tagged_data::Copied;

/// `getprinc`.
pub fn plan_show(
    alloc: Global,
    given: &Given,
    name: &Name,
) -> Result<Result<Planned, Refusal>, MemoryOut>
    ensures { IfOk result (λ plan. IsJudged given.now (command.GetPrinc name.now) plan) }
{
    let text = print_name(alloc, name)?;
    let client = print_name(alloc, given.client)?;
    let own = client.as_slice() == text.as_slice();
    let denied = own_denial(given, own, b'i', name);
    let found = found(given, text.as_slice());
    match present(denied, found, Refusal::UnknownPrincipal) {
        Ok(princ) => {
            let shown = record_shown(alloc, princ)?;
            Ok(Ok(Planned::Answer(Reply::Shown(shown))))
        }
        Err(why) => Ok(Err(why)),
    }
}

/// `getstrs`.
pub fn plan_strings(
    alloc: Global,
    given: &Given,
    name: &Name,
) -> Result<Result<Planned, Refusal>, MemoryOut>
    ensures { IfOk result (λ plan. IsJudged given.now (command.GetStrings name.now) plan) }
{
    let text = print_name(alloc, name)?;
    let denied = denial(given, b'i', Some(name));
    let found = found(given, text.as_slice());
    match present(denied, found, Refusal::UnknownPrincipal) {
        Ok(princ) => {
            let strings = princ.strings.copied(alloc)?;
            Ok(Ok(Planned::Answer(Reply::Strings(strings))))
        }
        Err(why) => Ok(Err(why)),
    }
}

fn extract_of(item: &PlainItem) -> Extract
    ensures { result ≡ extract_of item.now }
{
    Extract {
        kvno: item.kvno,
        key: item.key,
    }
}

/// The keys of a version, for a keytab.
fn extracts_of(alloc: Global, kvno: u16, items: &[PlainItem]) -> Result<Vec<Extract>, MemoryOut>
    ensures { IfOk result (λ list. list.items ≡ map extract_of (filter (has_kvno kvno) items.now)) }
{
    let list = items
        .iter()
        .filter(|item| item.kvno == kvno)
        .map(|item| extract_of(item))
        .collect(alloc)?;
    Ok(list)
}

/// The keys of the greatest version, for a keytab.
#[tactic(auto, unfolding(plain_keys::specs::Keys::extracts))]
fn extracts(alloc: Global, items: &[PlainItem]) -> Result<ExtractList, MemoryOut>
    ensures { IfOk result (λ list. list ≡ extracts items.now) }
{
    let list = extracts_of(alloc, newest_kvno(items), items)?;
    Ok(ExtractList::from_vec(list))
}

/// The newest keys of a record. Where no listed master key opens them, want of memory is answered: rows that show a
/// state have none such.
fn extracted(alloc: Global, given: &Given, princ: &Princ) -> Result<ExtractList, MemoryOut>
    ensures { (master : Key) (plain : List PlainItem) → master_of given.now.masters.now princ.now.mkvno ≡ Some master
        → AllZip (ShowsItem master) princ.now.keys plain → IfOk result (λ list. list ≡ extracts plain) }
{
    match master_of(given.masters, princ.mkvno) {
        Some(master) => {
            match open_items(alloc, &MasterKey::new(&master), princ.keys.as_slice()) {
                Ok(keys) => extracts(alloc, keys.as_slice()),
                Err(_) => Err(MemoryOut),
            }
        }
        None => Err(MemoryOut),
    }
}

/// `extract`.
pub fn plan_extract(
    alloc: Global,
    given: &Given,
    name: &Name,
) -> Result<Result<Planned, Refusal>, MemoryOut>
    ensures { IfOk result (λ plan. IsJudged given.now (command.Extract name.now) plan) }
{
    let text = print_name(alloc, name)?;
    let found = found(given, text.as_slice());
    let before = [
        denial(given, b'e', Some(name)),
        protection(given, text.as_slice()),
    ];
    match present(first(&before), found, Refusal::UnknownPrincipal) {
        Ok(princ) => match lockdown(given, Some(princ)) {
            Some(why) => Ok(Err(why)),
            None => {
                let keys = extracted(alloc, given, princ)?;
                Ok(Ok(Planned::Answer(Reply::Extracted(keys))))
            }
        },
        Err(why) => Ok(Err(why)),
    }
}

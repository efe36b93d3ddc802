//! What an access list says against the client of a primary.

ghost use Rattle.std.specs.Prelude.{◌≡◌, ◌∷◌, [], false, IfOk, None, option_map};
ghost use Rattle.command_plans.specs.Causes.{denial_of};
ghost use Rattle.iprop_truths.specs.Pulling.{denies_pull};
ghost use Rattle.kdb_model.specs.Access.{asking, master_parts, setting};
ghost use Rattle.princ_name.specs.Realms.{IsRealm};

use acl_text::Acl;
use command_plans::causes::denied_in;
use kdb_base::{MemoryOut, Refusal};
use kdb_plain::laws::own_names_are_printed;
use kdb_plain::master_name;
use princ_name::laws::{printed_form_spells_the_name, word_spells_one_name};
use princ_name::{Name, parse_name};
use std::alloc::Global;

/// The refusal of one operation, where there is an access list and it does not allow it.
pub fn denial(
    acl: Option<&Acl>,
    client: &Name,
    letter: u8,
    target: Option<&Name>,
) -> Option<Refusal>
    ensures { result ≡ denial_of (option_map (λ acl. acl.now) acl.entry) client.now
        (record { letter = letter; target = option_map (λ t. t.now) target.entry; plainly = false } ∷ []) }
{
    match acl {
        Some(acl) => denied_in(acl, client, letter, target, false),
        None => None,
    }
}

// The name of K/M, whose keys are the master keys.
fn master_parts(alloc: Global, realm: &[u8]) -> Result<Name, MemoryOut>
    requires { IsRealm realm.now }
    ensures { IfOk result (λ name. name ≡ master_parts realm.now) }
{
    printed_form_spells_the_name();
    word_spells_one_name();
    own_names_are_printed();
    let text = master_name(alloc, realm)?;
    match parse_name(alloc, text.as_slice(), realm) {
        Ok(name) => Ok(name),
        Err(_) => Err(MemoryOut),
    }
}

/// The refusal of the letter `s` on K/M, where there is an access list and it does not allow it.
///
/// # Errors
///
/// `MemoryOut` where memory is wanted and not given.
pub fn setting_denial(
    alloc: Global,
    acl: Option<&Acl>,
    client: &Name,
    realm: &[u8],
) -> Result<Option<Refusal>, MemoryOut>
    requires { IsRealm realm.now }
    ensures { IfOk result (λ why. why
        ≡ denial_of (option_map (λ acl. acl.now) acl.entry) client.now (asking setting (master_parts realm.now) ∷ [])) }
{
    let master = master_parts(alloc, realm)?;
    Ok(denial(acl, client, b's', Some(&master)))
}

/// Whether there is an access list and it does not allow the client to take updates and dumps, by the letter `p`.
pub fn denies_pull(acl: Option<&Acl>, client: &Name) -> bool
    ensures { result ≡ denies_pull (option_map (λ acl. acl.now) acl.entry) client.now }
{
    match acl {
        Some(acl) => !acl.decide(client, b'p', None).allowed,
        None => false,
    }
}

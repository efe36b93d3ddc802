//! How long a principal's spelling is, without writing it.

ghost use Rattle.std.specs.Prelude.{◌≡◌, ◌+◌, ◌*◌, ◌<◌, ◌≤◌, ◌^◌, length};
ghost use Rattle.tagged_data.specs.Strings.{AreStrings};
ghost use Rattle.tagged_data.specs.Versions.{aux_keys_text};
ghost use Rattle.princ_record.specs.Facts.{IsChain, IsChainOr};
ghost use Rattle.princ_record.specs.Princs.{name_of, princ, IsPolicyOr, IsPrinc};
ghost use Rattle.princ_record.specs.Sizes.{pw_text_len, chain_len, strings_item_len};

use crate::facts::ChainPart;
use crate::princs::Princ;
use kdb_base::Blob;
use princ_keys::measures::{keys_len, sets_len};
use tagged_data::{StringAttributes, aux_len, strings_len};

fn pw_text_len(pw_changed: Option<u32>) -> usize
    ensures value { result ≡ pw_text_len pw_changed }
    ensures small { result ≤ 8 }
{
    match pw_changed {
        Some(_) => 8,
        None => 0,
    }
}

fn chain_len(chain: &Option<ChainPart>) -> usize
    requires { IsChainOr chain.now }
    ensures value { result ≡ chain_len chain.now }
    ensures small { result < 2 ^ 18 }
{
    match chain {
        Some(part) => part_len(part),
        None => 0,
    }
}

fn part_len(part: &ChainPart) -> usize
    requires { IsChain part.now }
    ensures value { result ≡ 8 + 6 * length part.now.activations + length (aux_keys_text part.now.aux) }
    ensures small { result < 2 ^ 18 }
{
    let activations = 6 * part.activations.as_slice().len();
    8 + activations + aux_len(&part.aux)
}

fn strings_item_len(list: &StringAttributes) -> usize
    requires { AreStrings list.now }
    ensures value { result ≡ strings_item_len list.now }
    ensures small { result < 2 ^ 16 }
{
    if list.as_slice().is_empty() {
        return 0;
    }
    4 + strings_len(list)
}

#[tactic(auto, using(crate::proofs::ShortNames::policy_name_short), unfolding(crate::specs::Princs::name_of))]
fn policy_name_len(policy: &Option<Blob>) -> usize
    requires { IsPolicyOr policy.now }
    ensures value { result ≡ length (name_of policy.now) }
    ensures small { result ≤ 64 }
{
    match policy {
        Some(name) => name.len(),
        None => 0,
    }
}

/// The number of bytes of the principal's spelling, also where it is longer than a row may be.
#[tactic(auto, using(crate::proofs::Heads::short_printed))]
pub fn encoded_len(value: &Princ) -> usize
    requires { IsPrinc value.now }
    ensures { result ≡ length (princ value.now) }
{
    let names = value.name.len() + value.modifier.len() + policy_name_len(&value.policy);
    let keys = keys_len(value.keys.as_slice()) + sets_len(value.old.as_slice());
    let tags = pw_text_len(value.pw_changed) + chain_len(&value.chain);
    45 + names + tags + strings_item_len(&value.strings) + keys
}

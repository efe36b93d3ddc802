//! Laws of spellings. They do no work.

ghost use Rattle.std.specs.Prelude.{◌≡◌, ℕ, List, [], true, false, is_some, length, nat_lt, bit_and, bit_or};
ghost use Rattle.policy_rules.specs.Rules.{Rules};
ghost use Rattle.tagged_data.specs.Lists.{tagged, content, IsTagged};
ghost use Rattle.princ_record.specs.Facts.{facts};
ghost use Rattle.princ_record.specs.Policies.{policy, IsPolicy};
ghost use Rattle.princ_record.specs.Princs.{princ, IsPrinc, are_attributes, facts_of, with_keys, FitKeys};
ghost use Rattle.princ_keys.specs.Keys.{AreKeys};
ghost use Rattle.tagged_data.specs.Numbers.{IsVersion};
ghost use Rattle.princ_name.specs.Printed.{is_master};
ghost use Rattle.princ_record.specs.Tags.{tags};
ghost use Rattle.princ_keys.specs.declared.keys.KeyItem.{KeyItem};
ghost use Rattle.princ_record.specs.declared.princs.Princ.{Princ};

/// Two principals that have a spelling never have the same one.
pub fn principals_have_their_own_spellings()
    ensures { (p q : Princ) → IsPrinc p → IsPrinc q → princ p ≡ princ q → p ≡ q }
{}

/// Two policies that have a spelling never have the same one.
pub fn policies_have_their_own_spellings()
    ensures { (p q : Rules) → IsPolicy p → IsPolicy q → policy p ≡ policy q → p ≡ q }
{}

/// The tagged list inside a principal is the spelling of a list of items.
pub fn principals_have_tagged_lists()
    ensures text { (p : Princ) → facts (facts_of p) ≡ tagged (tags (facts_of p)) }
    ensures items { (p : Princ) → IsPrinc p → IsTagged (tags (facts_of p)) }
{}

/// The principal of the master key, and no other, has activations and auxiliary keys.
pub fn the_master_alone_has_a_chain()
    ensures activations { (p : Princ) → IsPrinc p → is_some (content 9 (tags (facts_of p))) ≡ is_master p.name }
    ensures aux_keys { (p : Princ) → IsPrinc p → is_some (content 10 (tags (facts_of p))) ≡ is_master p.name }
{}

/// There is an item of string attributes exactly where there is an attribute, and the master key's
/// principal has none.
pub fn attributes_are_an_item()
    ensures item { (p : Princ) → is_some (content 11 (tags (facts_of p))) ≡ nat_lt 0 (length p.strings) }
    ensures master { (p : Princ) → IsPrinc p → is_master p.name ≡ true → p.strings ≡ [] }
{}

/// The keys of a record may be replaced, under another version of the master key: the record has a
/// spelling again where the new keys fit, and outside the master key's principal any list of keys fits.
pub fn keys_may_be_replaced()
    ensures made { (p : Princ) (version : ℕ) (keys : List KeyItem) → IsPrinc p → FitKeys p version keys
        → IsPrinc (with_keys version keys p) }
    ensures other { (p : Princ) (version : ℕ) (keys : List KeyItem) → is_master p.name ≡ false → IsVersion version
        → AreKeys keys → FitKeys p version keys }
{}

/// Attributes of which flags are cleared are attributes, and so are those of two together.
pub fn flags_of_attributes_stay_known()
    ensures cleared { (attributes mask : ℕ) → are_attributes attributes ≡ true
        → are_attributes (bit_and attributes mask) ≡ true }
    ensures together { (a b : ℕ) → are_attributes a ≡ true → are_attributes b ≡ true
        → are_attributes (bit_or a b) ≡ true }
{}

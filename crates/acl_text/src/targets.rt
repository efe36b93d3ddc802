//! The target of a line, whose components may stand for what the client's wildcards matched.

ghost use Rattle.std.specs.Prelude.{◌≡◌, ◌<◌, IfOk, IfSome, map};
ghost use Rattle.std.specs.List.{list_all};
ghost use Rattle.acl_text.specs.Decisions.{is_every};
ghost use Rattle.acl_text.specs.Patterns.{are_known, is_known, matched_text, meant, meant_target, part_matches};
ghost use Rattle.acl_text.specs.Patterns.{parts_match, pattern_matches, target_in, text_at, wildcard_of};
ghost use Rattle.princ_name.specs.PatternReadings.{pattern_in};
ghost use Rattle.princ_name.specs.Patterns.{hits_of};
ghost use Rattle.princ_name.specs.Shape.{PatternShape};

use kadm_values::bytes::is_same;
use kdb_base::{Blob, MemoryOut};
use princ_name::{Hits, Kind, Name, NameFault, Part, Pattern};
use std::alloc::Global;

/// The pattern that a word spells in a database of the given realm.
#[tactic(auto, unfolding(princ_name::specs::PatternReadings::ReadsPattern))]
pub(crate) fn read_pattern(
    alloc: Global,
    word: &[u8],
    given: &[u8],
) -> Result<Option<Pattern>, MemoryOut>
    ensures { IfOk result (λ pattern. pattern ≡ pattern_in word.now given.now) }
{
    match Pattern::parse(alloc, word, given) {
        Ok(pattern) => Ok(Some(pattern)),
        Err(NameFault::BadName { offset: _ }) => Ok(None),
        Err(NameFault::MemoryOut) => Err(MemoryOut),
    }
}

// The number, from 0, of the client's wildcard that a component stands for.
#[tactic(auto, unfolding(crate::specs::Patterns::wildcard_of))]
fn wildcard_of(part: &Part) -> Option<usize>
    ensures value { result ≡ wildcard_of part.now }
    ensures below { IfSome result (λ number. number < 9) }
{
    match part.kind() {
        Kind::Text => None,
        Kind::Any => None,
        Kind::Wildcard(number) => Some(usize::from(number)),
    }
}

// Whether the client's pattern has the wildcard that a component names.
fn is_known(part: &Part, hits: &Hits) -> bool
    ensures { (client : PatternShape) → hits.now.at ≡ hits_of client → result ≡ is_known client (wildcard_of part.now) }
{
    match wildcard_of(part) {
        Some(number) => hits.at[number].is_some(),
        None => true,
    }
}

fn are_all_known(parts: &[Part], hits: &Hits) -> bool
    ensures { (client : PatternShape) → hits.now.at ≡ hits_of client
        → result ≡ list_all (λ part. is_known client (wildcard_of part)) parts.now }
{
    for part in parts {
        if !is_known(part, hits) {
            return false;
        }
    }
    true
}

#[tactic(auto, unfolding(crate::specs::Patterns::are_known))]
fn are_known(pattern: &Pattern, hits: &Hits) -> bool
    ensures { (client : PatternShape) → hits.now.at ≡ hits_of client → result ≡ are_known client pattern.now }
{
    match pattern.parts() {
        Some(parts) => are_all_known(parts, hits),
        None => true,
    }
}

#[tactic(auto, unfolding(crate::specs::Patterns::text_at))]
fn text_at<'a>(name: &'a Name, place: usize) -> &'a [u8]
    ensures { result.now ≡ text_at name.now place }
{
    let parts = name.parts();
    if place < parts.len() {
        return parts[place].as_slice();
    }
    name.realm()
}

// What the client's wildcard of this number matched.
fn matched_text<'a>(hits: &Hits, client: &'a Name, number: usize) -> &'a [u8]
    requires { number < 9 }
    ensures { (pattern : PatternShape) → hits.now.at ≡ hits_of pattern
        → result.now ≡ matched_text pattern client.now number }
{
    match hits.at[number] {
        Some(place) => text_at(client, usize::from(place)),
        None => b"".as_slice(),
    }
}

fn part_matches(part: &Part, text: &[u8]) -> bool
    ensures { result ≡ part_matches part.now text.now }
{
    part.is_any() || is_same(part.text.as_slice(), text)
}

// Whether a component matches, where the client's wildcards matched these places of its name.
#[tactic(auto, unfolding(crate::specs::Patterns::meant, princ_name::specs::Kinds::is_any, princ_name::specs::Kinds::kind_of))]
fn meant_matches(part: &Part, hits: &Hits, client: &Name, text: &[u8]) -> bool
    ensures { (pattern : PatternShape) → hits.now.at ≡ hits_of pattern
        → result ≡ part_matches (meant pattern client.now part.now) text.now }
{
    match wildcard_of(part) {
        Some(number) => is_same(matched_text(hits, client, number), text),
        None => part_matches(part, text),
    }
}

fn parts_match(parts: &[Part], hits: &Hits, client: &Name, texts: &[Blob]) -> bool
    ensures { (pattern : PatternShape) → hits.now.at ≡ hits_of pattern
        → result ≡ parts_match (map (meant pattern client.now) parts.now) texts.now }
{
    if parts.len() != texts.len() {
        return false;
    }
    for at in 0..parts.len() {
        if !meant_matches(&parts[at], hits, client, texts[at].as_slice()) {
            return false;
        }
    }
    true
}

/// Whether a target is `*`.
pub(crate) fn is_every(target: &Pattern) -> bool
    ensures { result ≡ is_every target.now }
{
    target.parts().is_none()
}

/// Whether a target matches a name, where the client's wildcards stand at these places of the client.
pub(crate) fn target_matches(target: &Pattern, hits: &Hits, client: &Name, name: &Name) -> bool
    ensures { (pattern : PatternShape) → hits.now.at ≡ hits_of pattern
        → result ≡ pattern_matches (meant_target pattern client.now target.now) name.now }
{
    match target.realm() {
        Some(realm) => match target.parts() {
            Some(parts) => {
                parts_match(parts, hits, client, name.parts()) && part_matches(realm, name.realm())
            }
            None => true,
        },
        None => true,
    }
}

/// The target that a word spells behind a client's pattern with wildcards at these places.
#[tactic(auto, unfolding(crate::specs::Patterns::target_in))]
pub(crate) fn read_target(
    alloc: Global,
    word: &[u8],
    given: &[u8],
    hits: &Hits,
) -> Result<Option<Pattern>, MemoryOut>
    ensures { (client : PatternShape) → hits.now.at ≡ hits_of client
        → IfOk result (λ target. target ≡ target_in word.now given.now client) }
{
    match read_pattern(alloc, word, given)? {
        Some(target) => {
            if !are_known(&target, hits) {
                return Ok(None);
            }
            Ok(Some(target))
        }
        None => Ok(None),
    }
}

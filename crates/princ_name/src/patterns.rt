ghost use Rattle.princ_name.specs.Patterns.{MatchesPart, MatchesParts, first_of, wild_places};
ghost use Rattle.std.specs.Prelude.{List, ℕ, ◌≡◌, ◌≢◌, ◌+◌, ◌<◌, ◌↔◌, [], ◌∷◌, ◌++◌, true};
ghost use Rattle.std.specs.Prelude.{false, None, length, IfOk, IfSome, IsTrue, option_map};

use crate::faults::NameFault;
use crate::names::Name;
use crate::parts::Part;
use crate::whole::read_whole;
use kdb_base::Blob;
use std::alloc::Global;
use std::marker::Model;

/// How many wildcards of a pattern are told.
pub const HITS: usize = 9;

/// The places of a pattern's first nine wildcards from the left: a component's number from 0, or the
/// number of components for the realm. The text that a wildcard matched stands there in the name.
#[derive(Clone, Copy, Debug, PartialEq, Eq)]
pub struct Hits {
    pub at: [Option<u8>; 9],
}

impl Hits {
    ghost use Rattle.princ_name.specs.Patterns.{first_of};

    /// No wildcard.
    #[tactic(auto, unfolding(crate::specs::Patterns::first_of))]
    pub fn none() -> Hits
        ensures { result.at ≡ first_of 9 [] }
    {
        Hits { at: [None; 9] }
    }
}

/// The wildcards that were found so far.
#[derive(Drop)]
struct Found {
    at: [Option<u8>; 9],
    count: usize,
}

impl Found {
    ghost use Rattle.princ_name.specs.Found.{IsFound};

    #[tactic(auto, unfolding(crate::specs::Patterns::first_of))]
    fn none() -> Found
        ensures { IsFound [] result }
    {
        Found {
            at: [None; 9],
            count: 0,
        }
    }

    /// Adds the place of a wildcard, where there is room for it.
    fn add(&mut self, place: u8)
        ensures { (places : List ℕ) → IsFound places self.old → IsFound (places ++ place ∷ []) self.new }
    {
        if self.count < HITS {
            self.at[self.count] = Some(place);
            self.count += 1;
        }
    }
}

#[derive(Debug, Drop)]
enum Form {
    Any,
    Parts { parts: Vec<Part>, realm: Part },
}

/// A pattern of names. `*` alone matches every name. Else it has components and a realm as a name has
/// them, and one that is `*` in the word matches any text whole.
#[derive(Debug, Drop)]
pub struct Pattern {
    form: Form,
}

impl Model for Pattern {
    ghost use Rattle.princ_name.specs.Patterns.{IsWithin};
    ghost use Rattle.princ_name.specs.Shape.{PatternShape, shape_of};

    ghost Value = { PatternShape };

    ghost view = { λ p. shape_of p.form };

    ghost invariant = { λ p. IsWithin (shape_of p.form) };
}

/// Whether a word is one `*`.
fn is_lone_star(text: &[u8]) -> bool
    ensures yes { result ≡ true → text.now ≡ 42 ∷ [] }
    ensures no { result ≡ false → text.now ≢ 42 ∷ [] }
{
    text == b"*".as_slice()
}

/// Whether a text is matched.
fn part_matches(part: &Part, text: &[u8]) -> bool
    ensures yes { result ≡ true → MatchesPart part.now text.now }
    ensures no { result ≡ false → MatchesPart part.now text.now → ⊥ }
{
    let any = part.is_any();
    if any {
        return true;
    }
    part.text.as_slice() == text
}

/// Whether as many texts are each matched by their own part.
fn parts_match(parts: &[Part], texts: &[Blob]) -> bool
    ensures yes { result ≡ true → MatchesParts parts.now texts.now }
    ensures no { result ≡ false → MatchesParts parts.now texts.now → ⊥ }
{
    if parts.len() != texts.len() {
        return false;
    }
    for at in 0..parts.len() {
        if !part_matches(&parts[at], texts[at].as_slice()) {
            return false;
        }
    }
    true
}

/// The places of the wildcards.
fn hits_among(parts: &[Part], realm: &Part) -> Hits
    requires { length parts.now < 256 }
    ensures { result.at ≡ first_of 9 (wild_places 0 (parts.now ++ realm.now ∷ [])) }
{
    let mut found = Found::none();
    for (place, part) in parts.iter().enumerate() {
        let any = part.is_any();
        if any {
            found.add(place as u8);
        }
    }
    let any_realm = realm.is_any();
    if any_realm {
        found.add(parts.len() as u8);
    }
    let at = found.at;
    Hits { at }
}

impl Pattern {
    ghost use Rattle.princ_name.specs.Faults.{fault_place};
    ghost use Rattle.princ_name.specs.Shape.{PatternShape, Every, Parts};
    ghost use Rattle.princ_name.specs.declared.parts.Part.{Part as PartShape};
    ghost use Rattle.princ_name.specs.Patterns.{AnswersPattern, Matches, SpellsPattern, hits_of, realm_of};
    ghost use Rattle.princ_name.specs.PatternReadings.{ReadsPattern, pattern_in};

    /// The pattern that a word spells. Faults and limits are those of `parse_name`, where a wildcard
    /// counts as the one byte that it is, and without an `@` it has the given realm.
    pub fn parse(alloc: Global, text: &[u8], realm: &[u8]) -> Result<Pattern, NameFault>
        ensures spelled { IfOk result (λ pattern. SpellsPattern text.now realm.now pattern) }
        ensures only { (pattern : PatternShape) → SpellsPattern text.now realm.now pattern
            → AnswersPattern pattern result }
        ensures place { (offset : ℕ) → result ≡ Err (NameFault.BadName offset) → offset ≡ fault_place text.now }
        ensures reading { ReadsPattern (pattern_in text.now realm.now) result }
    {
        if is_lone_star(text) {
            return Ok(Pattern { form: Form::Any });
        }
        match read_whole(alloc, text, realm) {
            Ok(whole) => Ok(Pattern {
                form: Form::Parts {
                    parts: whole.parts,
                    realm: whole.realm,
                },
            }),
            Err(fault) => Err(fault),
        }
    }

    /// The components, or `None` for the pattern of every name.
    pub fn parts(&self) -> Option<&[Part]>
        ensures every { result ≡ None → self.now ≡ Every }
        ensures parts { IfSome result (λ parts. (realm : PartShape) × (self.now ≡ Parts parts.now realm)) }
    {
        match &self.form {
            Form::Any => None,
            Form::Parts { parts, realm: _ } => Some(parts.as_slice()),
        }
    }

    /// The realm, or `None` for the pattern of every name.
    pub fn realm(&self) -> Option<&Part>
        ensures { option_map (λ p. p.now) result ≡ realm_of self.now }
    {
        match &self.form {
            Form::Any => None,
            Form::Parts { parts: _, realm } => Some(realm),
        }
    }

    /// The places of its wildcards in the names that it matches.
    pub fn hits(&self) -> Hits
        ensures { result.at ≡ hits_of self.now }
    {
        match &self.form {
            Form::Any => Hits::none(),
            Form::Parts { parts, realm } => hits_among(parts, realm),
        }
    }

    fn fits(&self, name: &Name) -> bool
        ensures { IsTrue result ↔ Matches self.now name.now }
    {
        match &self.form {
            Form::Any => true,
            Form::Parts { parts, realm } => {
                if !parts_match(parts, name.parts()) {
                    return false;
                }
                part_matches(realm, name.realm())
            }
        }
    }

    /// Whether the pattern matches a name. Where it does, the hits are the places of its wildcards in the
    /// name, and else they stay.
    pub fn matches(&self, name: &Name, hits: &mut Hits) -> bool
        ensures matches { IsTrue result ↔ Matches self.now name.now }
        ensures hits { result ≡ true → hits.new.at ≡ hits_of self.now }
        ensures kept { result ≡ false → hits.new ≡ hits.old }
    {
        if !self.fits(name) {
            return false;
        }
        *hits = self.hits();
        true
    }
}

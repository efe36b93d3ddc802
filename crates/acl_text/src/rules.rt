//! The rules of a text.

ghost use Rattle.std.specs.Prelude.{ℕ, ◌≡◌, ◌∷◌, Err, IfOk, Ok, OnOk, option_map};
ghost use Rattle.std.specs.List.{All};
ghost use Rattle.acl_text.specs.Decisions.{applies, target_fits};
ghost use Rattle.acl_text.specs.Reading.{IsBadLine, IsNumbered, TakesLine};
ghost use Rattle.acl_text.specs.Restrictions.{limits_in};
ghost use Rattle.acl_text.specs.Rules.{rule_behind, rule_of, rules_of};
ghost use Rattle.acl_text.specs.Texts.{said_lines, words_of};
ghost use Rattle.princ_name.specs.Patterns.{hits_of};

use crate::faults::AclFault;
use crate::letters::{are_letters, grants};
use crate::limits::{Limits, read_limits};
use crate::targets::{is_every, read_pattern, read_target, target_matches};
use crate::texts::{Line, is_skipped, split_words};
use kdb_base::{Blob, MemoryOut};
use princ_name::{Hits, Name, Pattern};
use std::alloc::Global;

/// A rule: whom it is about, what it lets them do, and to which principals.
#[derive(Debug, Drop)]
pub struct AclLine {
    /// The number of its line, counted from 1.
    pub number: u32,
    pub client: Pattern,
    /// The letters of operations.
    pub letters: Blob,
    /// Every principal, where it has none.
    pub target: Option<Pattern>,
    pub limits: Option<Limits>,
}

// The restrictions of words, and none where there is no word.
#[tactic(auto, unfolding(crate::specs::Restrictions::limits_in))]
fn limits_in(alloc: Global, words: &[Blob]) -> Result<Option<Option<Limits>>, MemoryOut>
    ensures { IfOk result (λ limits. limits ≡ limits_in words.now) }
{
    if words.is_empty() {
        return Ok(Some(None));
    }
    match read_limits(alloc, words)? {
        Some(limits) => Ok(Some(Some(limits))),
        None => Ok(None),
    }
}

// What stands before a target.
#[derive(Drop)]
struct Front {
    number: u32,
    client: Pattern,
    letters: Blob,
}

impl Front {
    fn into_rule(self, target: Option<Pattern>, limits: Option<Limits>) -> AclLine
        ensures { result ≡ record {
          number = self.number;
          client = self.client;
          letters = self.letters;
          target = target;
          limits = limits;
        } }
    {
        AclLine {
            number: self.number,
            client: self.client,
            letters: self.letters,
            target,
            limits,
        }
    }
}

// The rule with these words behind its letters, where the wildcards of its client stand at these places.
fn read_behind(
    alloc: Global,
    front: Front,
    hits: &Hits,
    words: &[Blob],
    realm: &[u8],
) -> Result<Option<AclLine>, MemoryOut>
    requires { hits.now.at ≡ hits_of front.client }
    ensures { IfOk result (λ rule. rule ≡ rule_behind front.number realm.now front.client front.letters words.now) }
{
    match words.split_first() {
        Some((word, words)) => match read_target(alloc, word.as_slice(), realm, hits)? {
            Some(target) => match limits_in(alloc, words)? {
                Some(limits) => Ok(Some(front.into_rule(Some(target), limits))),
                None => Ok(None),
            },
            None => Ok(None),
        },
        None => Ok(Some(front.into_rule(None, None))),
    }
}

// The rule of a client's word, of letters and of the words behind them.
#[tactic(auto, unfolding(crate::specs::Rules::rule_of))]
fn read_rule(
    alloc: Global,
    number: u32,
    client: &[u8],
    letters: &[u8],
    words: &[Blob],
    realm: &[u8],
) -> Result<Option<AclLine>, MemoryOut>
    ensures { IfOk result (λ rule. rule ≡ rule_of realm.now number (client.now ∷ letters.now ∷ words.now)) }
{
    if !are_letters(letters) {
        return Ok(None);
    }
    match read_pattern(alloc, client, realm)? {
        Some(client) => {
            let hits = client.hits();
            let letters = Blob::from_bytes(alloc, letters)?;
            let front = Front {
                number,
                client,
                letters,
            };
            read_behind(alloc, front, &hits, words, realm)
        }
        None => Ok(None),
    }
}

// The rule of these words.
#[tactic(auto, unfolding(crate::specs::Rules::rule_of))]
fn read_words(
    alloc: Global,
    number: u32,
    words: &[Blob],
    realm: &[u8],
) -> Result<Option<AclLine>, MemoryOut>
    ensures { IfOk result (λ rule. rule ≡ rule_of realm.now number words.now) }
{
    match words.split_first() {
        Some((client, rest)) => match rest.split_first() {
            Some((letters, rest)) => read_rule(
                alloc,
                number,
                client.as_slice(),
                letters.as_slice(),
                rest,
                realm,
            ),
            None => Ok(None),
        },
        None => Ok(None),
    }
}

// The rule of a line.
fn read_line(
    alloc: Global,
    number: u32,
    text: &[u8],
    realm: &[u8],
) -> Result<Option<AclLine>, MemoryOut>
    ensures { IfOk result (λ rule. rule ≡ rule_of realm.now number (words_of text.now)) }
{
    let words = split_words(alloc, text)?;
    read_words(alloc, number, &words, realm)
}

// Adds the rule of a line, where it has one.
fn take_line(
    alloc: Global,
    rules: &mut Vec<AclLine>,
    line: &Line,
    realm: &[u8],
) -> Result<(), AclFault>
    requires { IsNumbered line.now }
    ensures ok { OnOk result (TakesLine realm.now line.now rules.old.items rules.new.items) }
    ensures bad { (number : ℕ) → result ≡ Err (AclFault.BadAcl number) → IsBadLine realm.now line.now number }
{
    if is_skipped(line.text.as_slice()) {
        return Ok(());
    }
    let number = line.number as u32;
    match read_line(alloc, number, line.text.as_slice(), realm) {
        Ok(Some(rule)) => {
            rules.push(rule)?;
            Ok(())
        }
        Ok(None) => Err(AclFault::BadAcl { line: number }),
        Err(MemoryOut) => Err(AclFault::MemoryOut),
    }
}

/// The rules of lines, or the number of the first that is none.
pub(crate) fn read_rules(
    alloc: Global,
    lines: &[Line],
    realm: &[u8],
) -> Result<Vec<AclLine>, AclFault>
    requires { All IsNumbered lines.now }
    ensures ok { IfOk result (λ rules. rules_of realm.now (said_lines lines.now) ≡ Ok rules.items) }
    ensures bad { (number : ℕ) → result ≡ Err (AclFault.BadAcl number)
        → rules_of realm.now (said_lines lines.now) ≡ Err number }
{
    let mut rules = Vec::new(alloc);
    for line in lines {
        match take_line(alloc, &mut rules, line, realm) {
            Ok(()) => {}
            Err(fault) => return Err(fault),
        }
    }
    Ok(rules)
}

// Whether the target of a line is one of a client's operation.
fn target_fits(line: &AclLine, hits: &Hits, client: &Name, target: Option<&Name>) -> bool
    requires { hits.now.at ≡ hits_of line.now.client }
    ensures { result ≡ target_fits line.now.target line.now.client client.now (option_map (λ t. t.now) target.entry) }
{
    match &line.target {
        Some(pattern) => match target {
            Some(name) => target_matches(pattern, hits, client, name),
            None => is_every(pattern),
        },
        None => true,
    }
}

/// Whether a line is about a client and a target.
#[tactic(auto, unfolding(crate::specs::Decisions::applies))]
pub(crate) fn applies(line: &AclLine, client: &Name, target: Option<&Name>) -> bool
    ensures { result ≡ applies client.now (option_map (λ t. t.now) target.entry) line.now }
{
    let mut hits = Hits::none();
    if !line.client.matches(client, &mut hits) {
        return false;
    }
    target_fits(line, &hits, client, target)
}

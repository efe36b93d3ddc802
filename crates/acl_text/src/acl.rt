ghost use Rattle.std.specs.Prelude.{List, ℕ, ◌≡◌, ◌<◌, Err, IfOk, IfSome, Ok, find, length, option_map};
ghost use Rattle.acl_text.specs.Answers.{AnswersFault, AnswersRules};
ghost use Rattle.acl_text.specs.Decisions.{applies, decision};
ghost use Rattle.acl_text.specs.Letters.{grants};
ghost use Rattle.acl_text.specs.Limits.{IsLimits};
ghost use Rattle.acl_text.specs.Rules.{rules_in};
ghost use Rattle.acl_text.specs.declared.rules.AclLine.{AclLine as Rule};

use crate::faults::AclFault;
use crate::letters::grants;
use crate::limits::Limits;
use crate::rules::{AclLine, applies, read_rules};
use crate::texts::join_lines;
use princ_name::Name;
use std::alloc::Global;
use std::marker::Model;

/// The rules of a text, in the order of their lines.
#[derive(Debug, Drop)]
pub struct Acl {
    lines: Vec<AclLine>,
}

impl Model for Acl {
    ghost use Rattle.std.specs.Prelude.{List};
    ghost use Rattle.std.specs.List.{All};
    ghost use Rattle.acl_text.specs.Limits.{HasLimits};
    ghost use Rattle.acl_text.specs.declared.rules.AclLine.{AclLine};

    ghost Value = { List AclLine };

    ghost view = { λ acl. acl.lines.items };

    ghost invariant = { λ acl. All HasLimits acl.lines.items };
}

/// What the rules say of an operation.
#[derive(Clone, Copy, Debug)]
pub struct Verdict<'a> {
    /// The number of the line that decided, or 0 where none is about the client and the target.
    pub line: u32,
    /// Whether the operation is allowed.
    pub allowed: bool,
    /// The restrictions of that line.
    pub limits: Option<&'a Limits>,
}

// The verdict of a line.
fn verdict_of(line: &AclLine, letter: u8) -> Verdict<'_>
    ensures line { result.line ≡ line.now.number }
    ensures allowed { result.allowed ≡ grants line.now.letters letter }
    ensures limits { option_map (λ l. l.now) result.limits ≡ line.now.limits }
{
    Verdict {
        line: line.number,
        allowed: grants(line.letters.as_slice(), letter),
        limits: line.limits.as_ref(),
    }
}

// The first line that is about a client and a target.
fn find_line<'a>(lines: &'a [AclLine], client: &Name, target: Option<&Name>) -> Option<&'a AclLine>
    ensures { option_map (λ l. l.now) result
        ≡ find (applies client.now (option_map (λ t. t.now) target.entry)) lines.now }
{
    lines.iter().find(|line| applies(*line, client, target))
}

impl Acl {
    /// The rules of a text, in a database of this realm: a name without an `@` has it. A text of which a
    /// line is no rule is refused, with the number of the first such line.
    #[tactic(auto, unfolding(crate::specs::Rules::rules_in))]
    pub fn read(alloc: Global, text: &[u8], realm: &[u8]) -> Result<Acl, AclFault>
        requires { length text.now < 4294967296 }
        ensures ok { IfOk result (λ acl. rules_in realm.now text.now ≡ Ok acl) }
        ensures only { (lines : List Rule) → rules_in realm.now text.now ≡ Ok lines → AnswersRules lines result }
        ensures bad { (number : ℕ) → result ≡ Err (AclFault.BadAcl number) → rules_in realm.now text.now ≡ Err number }
        ensures only_bad { (number : ℕ) → rules_in realm.now text.now ≡ Err number → AnswersFault number result }
    {
        let lines = match join_lines(alloc, text) {
            Ok(lines) => lines,
            Err(_) => return Err(AclFault::MemoryOut),
        };
        match read_rules(alloc, &lines, realm) {
            Ok(lines) => Ok(Acl { lines }),
            Err(fault) => Err(fault),
        }
    }

    /// What the rules say of an operation of a client on a target, where it has one. The letters are those of
    /// the rules; no other is granted. Restrictions force only what a principal may have.
    #[tactic(auto, unfolding(crate::specs::Decisions::decision))]
    pub fn decide(&self, client: &Name, letter: u8, target: Option<&Name>) -> Verdict<'_>
        ensures line { result.line ≡ (decision self.now client.now letter (option_map (λ t. t.now) target.entry)).line }
        ensures allowed { result.allowed
            ≡ (decision self.now client.now letter (option_map (λ t. t.now) target.entry)).allowed }
        ensures limits { option_map (λ l. l.now) result.limits
            ≡ (decision self.now client.now letter (option_map (λ t. t.now) target.entry)).limits }
        ensures fit { IfSome (decision self.now client.now letter (option_map (λ t. t.now) target.entry)).limits
            IsLimits }
    {
        match find_line(&self.lines, client, target) {
            Some(line) => verdict_of(line, letter),
            None => Verdict {
                line: 0,
                allowed: false,
                limits: None,
            },
        }
    }
}

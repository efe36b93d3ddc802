ghost use Rattle.std.specs.Prelude.{ℕ, ◌≡◌, ◌<◌};
ghost use Rattle.princ_name.specs.Kinds.{is_any, kind_named, kind_of};

use kdb_base::Blob;

/// A component or a realm, as a word has it.
#[derive(Debug, Drop)]
pub struct Part {
    /// Its bytes, without the backslashes of the word.
    pub text: Blob,
    /// Whether it stands in the word as it is, without a backslash.
    pub bare: bool,
}

/// What a component or a realm is in a pattern. It is told from unescaped bytes alone: one in which a
/// backslash stands is a text, so `\*` and `\*1` are.
#[derive(Clone, Copy, Debug, PartialEq, Eq)]
pub enum Kind {
    /// Its bytes.
    Text,
    /// `*`, which matches any text whole.
    Any,
    /// `*1` to `*9`: where it may name what a wildcard of another pattern matched, the place of that one,
    /// 0 to 8. Elsewhere it is the text that it is.
    Wildcard(u8),
}

// What a text is that stands as it is.
#[tactic(auto, unfolding(crate::specs::Kinds::kind_named))]
fn kind_named(text: &[u8]) -> Kind
    ensures kind { result ≡ kind_named text.now }
    ensures place { (place : ℕ) → result ≡ Kind.Wildcard place → place < 9 }
{
    match text {
        [star] => { if *star == b'*' { Kind::Any } else { Kind::Text } }
        [star, digit] => {
            if *star == b'*' && 49 <= *digit && *digit <= 57 {
                Kind::Wildcard(*digit - 49)
            } else {
                Kind::Text
            }
        }
        _ => Kind::Text,
    }
}

impl Part {
    /// What it is in a pattern.
    #[tactic(auto, unfolding(crate::specs::Kinds::kind_of))]
    pub fn kind(&self) -> Kind
        ensures kind { result ≡ kind_of self.now }
        ensures place { (place : ℕ) → result ≡ Kind.Wildcard place → place < 9 }
    {
        if self.bare {
            return kind_named(self.text.as_slice());
        }
        Kind::Text
    }

    /// Whether it matches any text whole.
    #[tactic(auto, unfolding(crate::specs::Kinds::is_any))]
    pub fn is_any(&self) -> bool
        ensures { result ≡ is_any self.now }
    {
        match self.kind() {
            Kind::Text => false,
            Kind::Any => true,
            Kind::Wildcard(_) => false,
        }
    }
}

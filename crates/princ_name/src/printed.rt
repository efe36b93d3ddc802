//! Names of principals in their printed form, judged byte by byte and without memory.

ghost use Rattle.std.specs.Prelude.{◌≡◌, ◌↔◌, ◌∷◌, List, ℕ, None, true, false, IfSome};
ghost use Rattle.princ_name.specs.Bytes.{is_plain, is_sign};
ghost use Rattle.princ_name.specs.Names.{NameParts, IsName, printed};
ghost use Rattle.princ_name.specs.Printed.{IsPrinted, is_letter, is_printed, is_master, master_parts, prints};

/// The most bytes of a printed name.
const LONGEST: usize = 255;

#[tactic(auto, unfolding(crate::specs::Bytes::is_sign))]
fn is_sign(byte: u8) -> bool
    ensures { result ≡ is_sign byte }
{
    byte == b'/' || byte == b'@' || byte == b'\\'
}

#[tactic(auto, unfolding(crate::specs::Printed::is_letter))]
fn is_letter(byte: u8) -> bool
    ensures { result ≡ is_letter byte }
{
    byte == b'n' || byte == b't' || byte == b'b' || byte == b'0' || is_sign(byte)
}

#[tactic(auto, unfolding(crate::specs::Bytes::is_plain, crate::specs::Bytes::is_refused))]
fn is_plain(byte: u8) -> bool
    ensures { result ≡ is_plain byte }
{
    !(byte < 32 || byte == 127) && !is_sign(byte)
}

/// Where the reading of a printed name stands.
#[derive(Clone, Copy)]
struct Standing {
    /// Behind a backslash.
    escape: bool,
    /// Behind the @.
    realm: bool,
    /// The present component, or the realm, has a byte.
    some: bool,
    /// How many more components may begin.
    left: u8,
}

/// The standing behind the next byte, where it may stand there.
#[tactic(auto, unfolding(crate::specs::Printed::prints))]
fn next(at: Standing, byte: u8) -> Option<Standing>
    ensures some { IfSome result (λ s. (text : List ℕ)
        → prints at.escape at.realm at.some at.left (byte ∷ text) ≡ prints s.escape s.realm s.some s.left text) }
    ensures none { result ≡ None → (text : List ℕ) → prints at.escape at.realm at.some at.left (byte ∷ text) ≡ false }
{
    if at.escape {
        if !is_letter(byte) {
            return None;
        }
        return Some(Standing {
            escape: false,
            some: true,
            ..at
        });
    }
    if byte == b'\\' {
        return Some(Standing { escape: true, ..at });
    }
    if byte == b'/' {
        if at.realm || at.left == 0 {
            return None;
        }
        return Some(Standing {
            some: false,
            left: at.left - 1,
            ..at
        });
    }
    if byte == b'@' {
        if at.realm {
            return None;
        }
        return Some(Standing {
            realm: true,
            some: false,
            ..at
        });
    }
    if !is_plain(byte) {
        return None;
    }
    Some(Standing { some: true, ..at })
}

#[tactic(auto, unfolding(crate::specs::Printed::prints))]
fn prints(text: &[u8]) -> bool
    ensures { result ≡ prints false false false 15 text.now }
{
    let mut at = Standing {
        escape: false,
        realm: false,
        some: false,
        left: 15,
    };
    for byte in text {
        match next(at, *byte) {
            Some(behind) => at = behind,
            None => return false,
        }
    }
    !at.escape && at.realm && at.some
}

#[tactic(auto, unfolding(crate::specs::Printed::is_printed))]
fn has_form(text: &[u8]) -> bool
    ensures { result ≡ is_printed text.now }
{
    text.len() <= LONGEST && prints(text)
}

/// Whether the bytes are the printed form of a principal's name.
pub fn is_printed(text: &[u8]) -> bool
    ensures value { result ≡ is_printed text.now }
    ensures printed { (result ≡ true) ↔ IsPrinted text.now }
{
    has_form(text)
}

#[tactic(auto, unfolding(crate::specs::Printed::is_master))]
fn begins_as_master(text: &[u8]) -> bool
    ensures { result ≡ is_master text.now }
{
    text.starts_with(b"K/M@")
}

/// Whether a printed name is that of the master key's principal: its components are K and M.
pub fn is_master(text: &[u8]) -> bool
    ensures value { result ≡ is_master text.now }
    ensures master { (name : NameParts) → IsName name → text.now ≡ printed name
        → (result ≡ true) ↔ (name.parts ≡ master_parts) }
{
    begins_as_master(text)
}

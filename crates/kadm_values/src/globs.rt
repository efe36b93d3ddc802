ghost use Rattle.std.specs.Prelude.{List, ℕ, ◌≡◌, ◌+◌, ◌<◌, ◌≤◌, ◌≢◌, ◌⊎◌, true};
ghost use Rattle.std.specs.Prelude.{false, length, drop, slice_index, not, nat_eq};
ghost use Rattle.std.specs.List.{list_all};
ghost use Rattle.kadm_values.specs.Globs.{AnyBytes, Matches, IsLaid, matches};

// The bytes behind the first so many.
fn after(text: &[u8], at: usize) -> &[u8]
    requires { at ≤ length text.now }
    ensures { result.now ≡ drop at text.now }
{
    &text[at..]
}

// Whether a byte is as the glob has it, where the glob has no `*`.
fn fits(wanted: u8, byte: u8) -> bool
    ensures yes { result ≡ true → (wanted ≡ 63) ⊎ (wanted ≡ byte) }
    ensures no { result ≡ false → (wanted ≡ 63) ⊎ (wanted ≡ byte) → ⊥ }
{
    if wanted == b'?' {
        return true;
    }
    wanted == byte
}

// How many bytes of the glob stand before its first `*`, and whether there is one; the glob's length
// where there is none.
fn star_in(glob: &[u8]) -> usize
    ensures within { result ≤ length glob.now }
    ensures star { result < length glob.now → slice_index glob.now result ≡ 42 }
    ensures before { (k : ℕ) → k < result → slice_index glob.now k ≢ 42 }
{
    for (at, byte) in glob.iter().enumerate() {
        if *byte == b'*' {
            return at;
        }
    }
    glob.len()
}

// Whether the first bytes of the glob, among which is no `*`, match as many bytes of the text.
fn lies_on(glob: &[u8], text: &[u8], count: usize) -> bool
    requires within { count ≤ length glob.now }
    requires plain { (k : ℕ) → k < count → slice_index glob.now k ≢ 42 }
    ensures lies { result ≡ true → Matches (drop count glob.now) (drop count text.now) → Matches glob.now text.now }
    ensures long { result ≡ true → count ≤ length text.now }
    ensures no { result ≡ false → Matches glob.now text.now → ⊥ }
{
    for at in 0..count {
        if at >= text.len() {
            return false;
        }
        if !fits(glob[at], text[at]) {
            return false;
        }
    }
    true
}

// What comes of a glob that is laid on a text up to its first `*`.
enum Laid {
    // It matches the text, and has no `*`.
    Whole,
    // So many bytes match before the `*`.
    Star(usize),
    // It does not match.
    Apart,
}

fn lay(glob: &[u8], text: &[u8]) -> Laid
    ensures { IsLaid glob.now text.now result }
{
    let count = star_in(glob);
    if !lies_on(glob, text, count) {
        return Laid::Apart;
    }
    if count < glob.len() {
        return Laid::Star(count);
    }
    if count == text.len() {
        return Laid::Whole;
    }
    Laid::Apart
}

// What stands behind a byte of the glob.
fn behind(glob: &[u8], at: usize) -> &[u8]
    requires { at < length glob.now }
    ensures { result.now ≡ drop (at + 1) glob.now }
{
    after(glob, at + 1)
}

// Whether the glob matches some end of the text.
fn end_matches(glob: &[u8], text: &[u8]) -> bool
    ensures yes { result ≡ true → AnyBytes (Matches glob.now) text.now }
    ensures no { result ≡ false → AnyBytes (Matches glob.now) text.now → ⊥ }
{
    let mut wanted = glob;
    let mut left = text;
    loop {
        match lay(wanted, left) {
            Laid::Whole => return true,
            Laid::Star(count) => {
                wanted = behind(wanted, count);
                left = after(left, count);
            }
            Laid::Apart => {
                if left.is_empty() {
                    return false;
                }
                left = after(left, 1);
            }
        }
    }
}

/// Whether a glob matches a text: `*` matches any bytes, `?` any one byte, and each other byte itself.
/// The time is that of the glob's length times the text's.
pub fn glob_matches(glob: &[u8], text: &[u8]) -> bool
    ensures test { result ≡ matches glob.now text.now }
    ensures yes { result ≡ true → Matches glob.now text.now }
    ensures no { result ≡ false → Matches glob.now text.now → ⊥ }
{
    match lay(glob, text) {
        Laid::Whole => true,
        Laid::Star(count) => end_matches(behind(glob, count), after(text, count)),
        Laid::Apart => false,
    }
}

/// Whether a word is a glob: `[` is kept for sets of bytes, which no glob has here.
pub fn is_glob(word: &[u8]) -> bool
    ensures { result ≡ list_all (λ byte. not (nat_eq byte 91)) word.now }
{
    word.iter().all(|byte| *byte != b'[')
}

//! Words as bytes.
ghost use Rattle.std.specs.Prelude.{◌≡◌, ◌≢◌, ◌≤◌, true, false, length, take, drop};
ghost use Rattle.std.specs.Str.{bytes_eq};

/// Whether two texts have the same bytes.
pub fn is_same(text: &[u8], other: &[u8]) -> bool
    ensures same { result ≡ bytes_eq text.now other.now }
    ensures yes { result ≡ true → text.now ≡ other.now }
    ensures no { result ≡ false → text.now ≢ other.now }
{
    text == other
}

// The first so many bytes.
pub(crate) fn before(text: &[u8], at: usize) -> &[u8]
    requires { at ≤ length text.now }
    ensures { result.now ≡ take at text.now }
{
    &text[..at]
}

// The bytes behind the first so many.
pub(crate) fn after(text: &[u8], at: usize) -> &[u8]
    requires { at ≤ length text.now }
    ensures { result.now ≡ drop at text.now }
{
    &text[at..]
}

ghost use Rattle.std.specs.Prelude.{◌≡◌};
ghost use Rattle.princ_name.specs.Bytes.{is_refused, escaped, can_stand};

/// Whether a byte is refused wherever it stands in a word.
#[tactic(auto, unfolding(crate::specs::Bytes::is_refused))]
pub fn is_refused(byte: u8) -> bool
    ensures { result ≡ is_refused byte }
{
    byte < 32 || byte == 127
}

/// The byte for which a backslash and this byte stand.
#[tactic(auto, unfolding(crate::specs::Bytes::escaped))]
pub fn escaped(byte: u8) -> u8
    ensures { result ≡ escaped byte }
{
    match byte {
        b'n' => b'\n',
        b't' => b'\t',
        b'b' => 8,
        b'0' => 0,
        _ => byte,
    }
}

/// Whether a byte may stand in a name.
#[tactic(auto, unfolding(crate::specs::Bytes::can_stand))]
pub fn can_stand(byte: u8) -> bool
    ensures { result ≡ can_stand byte }
{
    !is_refused(byte) || (byte == b'\n' || byte == b'\t' || byte == 8 || byte == 0)
}

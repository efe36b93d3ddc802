/// What a call on a disk in memory did. A call that failed, a read and a length change nothing.
#[derive(Debug, Drop)]
pub(crate) enum Call {
    Wrote { file: u8, at: u64, bytes: Vec<u8> },
    Cut { file: u8, len: u64 },
    Synced { file: u8 },
    Looked,
}

/// Which image of a moment inside a call is taken.
#[derive(Clone, Copy, Debug, PartialEq, Eq)]
pub enum Pick {
    /// Everything that was written stands.
    Written,
    /// Each file is as its last sync left it.
    Old,
    /// Every byte that may be any byte is a5 hexadecimal, at the greatest length.
    Noise,
}

//! What commands say of policies.

use kdb_base::Blob;

/// The policy that a line gives to a principal.
#[derive(Debug, Drop)]
pub enum PolicyChoice {
    /// `-policy`, with the policy's name.
    Named(Blob),
    /// `-clearpolicy`.
    Cleared,
}

/// `modpol`. None where an option is not given.
#[derive(Debug, Drop)]
pub struct ModPolicy {
    pub name: Blob,
    /// `-maxlife`, in seconds, 0 for none.
    pub max_life: Option<u32>,
    /// `-minlife`, in seconds, 0 for none.
    pub min_life: Option<u32>,
    /// `-minlength`, 1 to 255.
    pub min_length: Option<u16>,
    /// `-minclasses`, 1 to 5.
    pub min_classes: Option<u16>,
    /// `-history`, 1 to 16.
    pub history: Option<u16>,
}

use kdb_base::Blob;
use plain_keys::{PlainItems, PlainSets};
use princ_rows::Keyed;
use tagged_data::StringAttributes;

/// A principal with its keys in the plain. Times are in seconds since 1970 and lives in seconds. It has the fields
/// of [`princ_record::Princ`] but for what K/M alone has there: the activations of the master key stand in the
/// state, and its auxiliary keys are the newest master key.
#[derive(Drop)]
pub struct PlainPrinc {
    /// The name in its printed form.
    pub name: Blob,
    pub attributes: u32,
    pub max_life: u32,
    pub max_renew: u32,
    /// 0 for never.
    pub expire: u32,
    /// When the password expires, 0 for never.
    pub pw_expire: u32,
    /// The last time at which a password or a random key was set.
    pub pw_changed: Option<u32>,
    /// When the principal was changed last.
    pub modified: u32,
    /// The printed name of who changed it last.
    pub modifier: Blob,
    /// The version of the master key that protects the keys.
    pub mkvno: u16,
    /// By versions that never rise.
    pub keys: PlainItems,
    pub policy: Option<Blob>,
    /// Keys of earlier passwords, newest first.
    pub old: PlainSets,
    pub strings: StringAttributes,
}

impl Keyed for PlainPrinc {
    ghost key_of = { λ q. q.name };

    fn key(&self) -> &[u8] {
        self.name.as_slice()
    }
}

//! The keys of principals in the plain, which commands make, keep and remember, and the passwords they are made of.
#![tactic(auto)]

mod copies;
pub mod items;
pub mod laws;
pub mod new_keys;
pub mod passwords;
mod remembering;

pub use items::{PlainItem, PlainItems, PlainKeys, PlainSet, PlainSets};
pub use new_keys::{
    Etypes, NewKeys, items_of, made_keys, normal_salt, password_keys, random_keys, settled_salt,
};
pub use passwords::Password;
pub use remembering::{is_reused, newest_keys, newest_kvno, remembered};

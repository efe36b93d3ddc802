//! Tagged lists: numbered pieces of data that a principal's record carries, such as the time of the
//! last password change. Reading a list does not judge the contents. A content of one number is
//! written by `kdb_format::writing::push_u32_le` and `push_u16_le`.
#![tactic(auto)]

pub mod copies;
pub mod faults;
pub mod items;
pub mod kinds;
pub mod lists;
pub mod measures;
pub mod modifiers;
pub mod numbers;
pub mod rest;
pub mod rising;
pub mod string_attributes;
pub mod versions;

pub use copies::{Copied, copy_all};
pub use faults::TagFault;
pub use items::TagItem;
pub use lists::{TagList, Tagged, content, push_tagged, read_tagged, tagged_len, write_tagged};
pub use measures::{Measured, aux_len, measure_all, strings_len};
pub use modifiers::{modifier, push_modifier};
pub use numbers::{mkvno, pw_change};
pub use string_attributes::{
    StringAttribute, StringAttributes, is_string_key, is_string_value, push_strings, strings,
};
pub use versions::{activations, aux_keys, push_activations, push_aux_keys};

//! The options of lines, as commands have them and rules of access: a table says which may stand and what
//! their values are, and one reader takes them from the front of words.
#![tactic(auto)]

pub mod arguments;
pub mod laws;
pub mod options;
pub mod settings;

pub use arguments::{LeadingOptions, read_options};
pub use options::{
    Given, Opening, OptionName, Setting, ValueKind, are_single, is_chosen, is_dashes, is_given,
    is_signed,
};
pub use settings::{find_policy, find_seconds, find_word, first_bad, flags_among, read_within};

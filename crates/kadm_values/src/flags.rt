ghost use Rattle.std.specs.Prelude.{◌≡◌, map, filter, find, not, nat_eq, bit_and, IfOk, option_map};
ghost use Rattle.std.specs.Str.{bytes_eq};
ghost use Rattle.kadm_values.specs.Flags.{row_of, flag_rows, flag_named, flag_change, set_flags, with_flag, with_flags};

use crate::bytes::is_same;
use kdb_base::MemoryOut;
use std::alloc::Global;

/// An attribute of a principal.
#[derive(Clone, Copy, Debug)]
pub struct Flag {
    /// Its word, without the sign.
    pub word: &'static [u8],
    /// Its bit among the attributes.
    pub bit: u32,
    /// Whether `+` sets the bit and `-` clears it; else it is the other way round. A set bit is shown with
    /// the sign that sets it.
    pub plus_sets: bool,
}

/// What a flag does: whether it sets or clears an attribute, and the attribute's bit.
#[derive(Clone, Copy, Debug, PartialEq, Eq)]
pub struct FlagChange {
    pub set: bool,
    pub bit: u32,
}

// In the order in which they are shown.
static FLAGS: [Flag; 16] = [
    Flag {
        word: b"allow_postdated",
        bit: 0x1,
        plus_sets: false,
    },
    Flag {
        word: b"allow_forwardable",
        bit: 0x2,
        plus_sets: false,
    },
    Flag {
        word: b"allow_tgs_req",
        bit: 0x4,
        plus_sets: false,
    },
    Flag {
        word: b"allow_renewable",
        bit: 0x8,
        plus_sets: false,
    },
    Flag {
        word: b"allow_proxiable",
        bit: 0x10,
        plus_sets: false,
    },
    Flag {
        word: b"allow_dup_skey",
        bit: 0x20,
        plus_sets: false,
    },
    Flag {
        word: b"allow_tix",
        bit: 0x40,
        plus_sets: false,
    },
    Flag {
        word: b"requires_preauth",
        bit: 0x80,
        plus_sets: true,
    },
    Flag {
        word: b"requires_hwauth",
        bit: 0x100,
        plus_sets: true,
    },
    Flag {
        word: b"needchange",
        bit: 0x200,
        plus_sets: true,
    },
    Flag {
        word: b"allow_svr",
        bit: 0x1000,
        plus_sets: false,
    },
    Flag {
        word: b"password_changing_service",
        bit: 0x2000,
        plus_sets: true,
    },
    Flag {
        word: b"ok_as_delegate",
        bit: 0x100000,
        plus_sets: true,
    },
    Flag {
        word: b"ok_to_auth_as_delegate",
        bit: 0x200000,
        plus_sets: true,
    },
    Flag {
        word: b"no_auth_data_required",
        bit: 0x400000,
        plus_sets: true,
    },
    Flag {
        word: b"lockdown_keys",
        bit: 0x800000,
        plus_sets: true,
    },
];

#[tactic(auto, unfolding(crate::specs::Flags::flag_rows))]
fn known_flags() -> &'static [Flag; 16]
    ensures { map row_of result.now ≡ flag_rows }
{
    &FLAGS
}

// The first of these flags that has this word.
fn find_among(flags: &[Flag], word: &[u8]) -> Option<Flag>
    ensures { result ≡ find (λ flag. bytes_eq flag.word.now word.now) flags.now }
{
    flags.iter().copied().find(|flag| is_same(flag.word, word))
}

// Those of these flags whose bits stand.
fn set_among(alloc: Global, flags: &[Flag], attributes: u32) -> Result<Vec<Flag>, MemoryOut>
    ensures { IfOk result (λ set. set.items ≡ filter (λ flag. not (nat_eq (bit_and attributes flag.bit) 0)) flags.now) }
{
    let set = flags
        .iter()
        .filter(|flag| attributes & flag.bit != 0)
        .copied()
        .collect(alloc)?;
    Ok(set)
}

// The flag of this word.
fn find_flag(word: &[u8]) -> Option<Flag>
    ensures { option_map row_of result ≡ flag_named word.now }
{
    find_among(known_flags(), word)
}

/// What a word of a sign and a flag does. Nothing where it is no such word.
#[tactic(auto, unfolding(crate::specs::Flags::flag_change))]
pub fn read_flag(word: &[u8]) -> Option<FlagChange>
    ensures { result ≡ flag_change word.now }
{
    match word {
        [b'+', name @ ..] => match find_flag(name) {
            Some(flag) => Some(FlagChange {
                set: flag.plus_sets,
                bit: flag.bit,
            }),
            None => None,
        },
        [b'-', name @ ..] => match find_flag(name) {
            Some(flag) => Some(FlagChange {
                set: !flag.plus_sets,
                bit: flag.bit,
            }),
            None => None,
        },
        _ => None,
    }
}

/// The flags whose bits stand among the attributes, in the order in which they are shown.
pub fn flags_in(alloc: Global, attributes: u32) -> Result<Vec<Flag>, MemoryOut>
    ensures { IfOk result (λ flags. map row_of flags.items ≡ set_flags attributes) }
{
    let flags = set_among(alloc, known_flags(), attributes)?;
    Ok(flags)
}

fn with_flag(attributes: u32, change: FlagChange) -> u32
    ensures { result ≡ with_flag attributes change }
{
    if change.set {
        attributes | change.bit
    } else {
        attributes & !change.bit
    }
}

/// The attributes behind these flags, of which the last on a bit counts.
#[tactic(auto, unfolding(crate::specs::Flags::with_flags))]
pub fn with_flags(attributes: u32, changes: &[FlagChange]) -> u32
    ensures { result ≡ with_flags attributes changes.now }
{
    changes.iter().fold(
        attributes,
        |attributes, change| with_flag(attributes, *change),
    )
}

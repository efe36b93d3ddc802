//! The limits that several crates go by. `specs/Limits.antt` names the same numbers for contracts.

/// The most rows of a database, principals and policies together.
pub const MAX_ROWS: usize = 100_000;
/// The most bytes of a principal's row.
pub const MAX_ROW_LEN: usize = 16_000;
/// The most bytes of a principal's row in files of format 1 and dumps of version 1.
pub const MAX_ROW_LEN_1: usize = 8_000;
/// The most bytes of a line before its line feed.
pub const MAX_LINE_LEN: usize = 65_536;
/// The most keys of a principal.
pub const MAX_KEYS: usize = 32;
/// The most versions of the master key.
pub const MAX_MASTERS: usize = 32;
/// The most remembered sets of a principal.
pub const MAX_OLD_SETS: usize = 15;
/// The most string attributes of a principal.
pub const MAX_STRINGS: usize = 16;

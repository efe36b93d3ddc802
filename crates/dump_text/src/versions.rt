//! The versions of the format of dumps.
ghost use Rattle.std.specs.Prelude.{◌≡◌};
ghost use Rattle.princ_record.specs.Princs.{IsPrinc};
ghost use Rattle.dump_text.specs.Versions.{stands_in, version_of};

use princ_record::{Princ, is_row, is_row_1};

/// A version of the format of dumps. A dump is written in the second.
#[derive(Clone, Copy, Debug, PartialEq, Eq)]
pub enum Version {
    /// No principal has string attributes, and a principal's row has at most 8000 bytes.
    One,
    /// A principal's row has at most 16000 bytes.
    Two,
}

impl Version {
    /// The version of a dump whose first line is this one, without its line feed.
    #[tactic(auto, unfolding(crate::specs::Versions::version_of, crate::specs::Versions::title))]
    pub fn from_title(line: &[u8]) -> Option<Version>
        ensures { result ≡ version_of line.now }
    {
        if line == b"kdb dump 1".as_slice() {
            return Some(Version::One);
        }
        if line == b"kdb dump 2".as_slice() {
            return Some(Version::Two);
        }
        None
    }

    /// Whether the record may stand in a dump of this version.
    #[tactic(auto, unfolding(crate::specs::Versions::stands_in))]
    pub(crate) fn takes(self, princ: &Princ) -> bool
        requires { IsPrinc princ.now }
        ensures { result ≡ stands_in self princ.now }
    {
        match self {
            Version::One => is_row_1(princ),
            Version::Two => is_row(princ),
        }
    }
}

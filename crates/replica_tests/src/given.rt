//! Dumps that a replica loads, and replies that it takes: texts and frames, all but one of which name one second.

/// The second of each point.
pub(crate) const SECS: u32 = 1_700_000_000;

/// The names of the principals.
pub(crate) const AMY: &[u8] = b"amy@EXAMPLE.ORG";

pub(crate) const BOB: &[u8] = b"bob@EXAMPLE.ORG";

pub(crate) const EVE: &[u8] = b"eve@EXAMPLE.ORG";

/// A database at serial 2 with amy and bob.
pub(crate) const TWO: &[u8] = b"kdb dump 2\nrealm EXAMPLE.ORG\npoint 2 1700000000.000000\n\
princ 000f616d79404558414d504c452e4f524700000000000000000000000000000000000000000002\
0002001400f15365626f62404558414d504c452e4f524700000800020100000000000000\n\
princ 000f626f62404558414d504c452e4f524700000000000000000000000000000000000000000002\
0002001400f15365626f62404558414d504c452e4f524700000800020100000000000000\n\
end 2\n";

/// The same, as a dump of the first version.
pub(crate) const OLD_TWO: &[u8] = b"kdb dump 1\nrealm EXAMPLE.ORG\npoint 2 1700000000.000000\n\
princ 000f616d79404558414d504c452e4f524700000000000000000000000000000000000000000002\
0002001400f15365626f62404558414d504c452e4f524700000800020100000000000000\n\
princ 000f626f62404558414d504c452e4f524700000000000000000000000000000000000000000002\
0002001400f15365626f62404558414d504c452e4f524700000800020100000000000000\n\
end 2\n";

/// A database at serial 4 with bob.
pub(crate) const FOUR: &[u8] = b"kdb dump 2\nrealm EXAMPLE.ORG\npoint 4 1700000000.000000\n\
princ 000f626f62404558414d504c452e4f524700000000000000000000000000000000000000000002\
0002001400f15365626f62404558414d504c452e4f524700000800020100000000000000\n\
end 1\n";

/// A database with bob that has one serial left.
pub(crate) const NEAR_LAST: &[u8] =
    b"kdb dump 2\nrealm EXAMPLE.ORG\npoint 4294967294 1700000000.000000\n\
princ 000f626f62404558414d504c452e4f524700000000000000000000000000000000000000000002\
0002001400f15365626f62404558414d504c452e4f524700000800020100000000000000\n\
end 1\n";

/// The reply to a poll at serial 2: update 3 takes bob away, and update 4 puts eve.
pub(crate) const UPDATES: &[u8] =
    b"\x00\x00\x00\x12\x11\x00\x00\x00\x00\x02\x65\x53\xf1\x00\x00\x00\x00\x00\x00\x00\x00\x02\
\x00\x00\x00\x21\x14\x00\x00\x00\x03\x65\x53\xf1\x00\x00\x00\x00\x00\x02\x00\x0fbob@EXAMPLE.ORG\x00\x00\
\x00\x00\x00\x6c\x14\x00\x00\x00\x04\x65\x53\xf1\x00\x00\x00\x00\x00\x01\x00\x0feve@EXAMPLE.ORG\x00\x4b\
\x00\x0feve@EXAMPLE.ORG\x00\x00\x00\x00\x00\x00\x00\x00\x00\x00\x00\x00\x00\x00\x00\x00\x00\x00\x00\x00\
\x00\x02\x00\x02\x00\x14\x00\xf1\x53\x65bob@EXAMPLE.ORG\x00\x00\x08\x00\x02\x01\x00\x00\x00\x00\x00\x00\x00";

/// One whose update 3 is not there: update 4 takes bob away.
pub(crate) const SKIPPED: &[u8] =
    b"\x00\x00\x00\x12\x11\x00\x00\x00\x00\x02\x65\x53\xf1\x00\x00\x00\x00\x00\x00\x00\x00\x01\
\x00\x00\x00\x21\x14\x00\x00\x00\x04\x65\x53\xf1\x00\x00\x00\x00\x00\x02\x00\x0fbob@EXAMPLE.ORG\x00\x00";

/// One whose times fall: update 3 takes bob away, and update 4, of the second before, amy.
pub(crate) const FALLING: &[u8] =
    b"\x00\x00\x00\x12\x11\x00\x00\x00\x00\x02\x65\x53\xf1\x00\x00\x00\x00\x00\x00\x00\x00\x02\
\x00\x00\x00\x21\x14\x00\x00\x00\x03\x65\x53\xf1\x00\x00\x00\x00\x00\x02\x00\x0fbob@EXAMPLE.ORG\x00\x00\
\x00\x00\x00\x21\x14\x00\x00\x00\x04\x65\x53\xf0\xff\x00\x00\x00\x00\x02\x00\x0famy@EXAMPLE.ORG\x00\x00";

/// One whose update 3 puts eve, and whose update 4 moves her to the name of amy.
pub(crate) const MOVED: &[u8] =
    b"\x00\x00\x00\x12\x11\x00\x00\x00\x00\x02\x65\x53\xf1\x00\x00\x00\x00\x00\x00\x00\x00\x02\
\x00\x00\x00\x6c\x14\x00\x00\x00\x03\x65\x53\xf1\x00\x00\x00\x00\x00\x01\x00\x0feve@EXAMPLE.ORG\x00\x4b\
\x00\x0feve@EXAMPLE.ORG\x00\x00\x00\x00\x00\x00\x00\x00\x00\x00\x00\x00\x00\x00\x00\x00\x00\x00\x00\x00\
\x00\x02\x00\x02\x00\x14\x00\xf1\x53\x65bob@EXAMPLE.ORG\x00\x00\x08\x00\x02\x01\x00\x00\x00\x00\x00\x00\x00\
\x00\x00\x00\x6c\x14\x00\x00\x00\x04\x65\x53\xf1\x00\x00\x00\x00\x00\x03\x00\x0feve@EXAMPLE.ORG\x00\x4b\
\x00\x0famy@EXAMPLE.ORG\x00\x00\x00\x00\x00\x00\x00\x00\x00\x00\x00\x00\x00\x00\x00\x00\x00\x00\x00\x00\
\x00\x02\x00\x02\x00\x14\x00\xf1\x53\x65bob@EXAMPLE.ORG\x00\x00\x08\x00\x02\x01\x00\x00\x00\x00\x00\x00\x00";

/// The reply to a poll without a database: nothing is new.
pub(crate) const NOTHING: &[u8] =
    b"\x00\x00\x00\x12\x11\x04\x00\x00\x00\x00\x00\x00\x00\x00\x00\x00\x00\x00\x00\x00\x00\x00";

/// The reply to one, by which update 1 takes bob away.
pub(crate) const FIRST: &[u8] =
    b"\x00\x00\x00\x12\x11\x00\x00\x00\x00\x00\x00\x00\x00\x00\x00\x00\x00\x00\x00\x00\x00\x01\
\x00\x00\x00\x21\x14\x00\x00\x00\x01\x65\x53\xf1\x00\x00\x00\x00\x00\x02\x00\x0fbob@EXAMPLE.ORG\x00\x00";

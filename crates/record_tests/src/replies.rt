use kdb_base::{Point, Time};
use princ_rows::{Entries, PollReply, ReplyCode};
use std::test::*;

#[test]
fn a_reply_has_the_code_of_iprop(rt: HostRuntime) {
    let codes = [
        (0, Some(ReplyCode::UpdateOk)),
        (1, None),
        (2, Some(ReplyCode::FullResyncNeeded)),
        (3, Some(ReplyCode::Busy)),
        (4, Some(ReplyCode::Nil)),
        (5, Some(ReplyCode::PermDenied)),
        (6, None),
    ];
    for (number, code) in codes {
        assert_eq!(rt; ReplyCode::from_number(number), code);
        if let Some(code) = code {
            assert_eq!(rt; code.number(), number);
        }
    }
    let asked = Point {
        sno: 7,
        time: Time::new(1, 2),
    };
    let none = Entries::from_vec(Vec::new(rt.alloc()));
    let reply = PollReply::new(ReplyCode::Nil, asked, none);
    assert_eq!(rt; reply.code(), ReplyCode::Nil);
    assert_eq!(rt; reply.asked().sno, 7);
    assert_eq!(rt; reply.updates().len(), 0);
    assert_eq!(rt; reply.into_updates().as_slice().len(), 0);
}

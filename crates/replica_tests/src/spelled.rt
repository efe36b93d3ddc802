//! Replies as they travel, spelled by their points, apart from the code that writes them.

use crate::steps::At;
use std::alloc::Global;
use std::test::Fail;

/// An update of a reply, at this point.
#[derive(Clone, Copy)]
pub(crate) enum Update {
    /// It takes bob away.
    Drops(At),
    /// It puts eve, who has one key with a salt of so many letters. In the log its entry has 121 bytes more: 21 before
    /// the name, 15 of the name, and 85 of the row.
    Puts(At, u16),
}

/// A reply to a poll at this point.
#[derive(Clone, Copy)]
pub(crate) enum Reply {
    /// These updates came behind it.
    Updates(At, &'static [Update]),
    /// No dump can be begun now.
    Busy(At),
    /// Who asked may not.
    Denied(At),
}

/// The row of eve up to the length of the salt: her name, no attributes, lives of 0, who put her and under which
/// master key, and of one key the version, the type and the kind of its salt.
const FRONT: &[u8] =
    b"\x00\x0feve@EXAMPLE.ORG\x00\x00\x00\x00\x00\x00\x00\x00\x00\x00\x00\x00\x00\x00\x00\x00\x00\x00\x00\x00\
\x00\x02\x00\x02\x00\x14\x00\xf1\x53\x65bob@EXAMPLE.ORG\x00\x00\x08\x00\x02\x01\x00\x00\x01\x00\x01\x00\x12\x00\x04";

fn push_point(text: &mut Vec<u8>, point: At) -> Result<(), Fail> {
    for number in [point.0, point.1, point.2] {
        text.extend_from_slice(&number.to_be_bytes())?;
    }
    Ok(())
}

fn push_salt(text: &mut Vec<u8>, salt: u16) -> Result<(), Fail> {
    text.extend_from_slice(&salt.to_be_bytes())?;
    for _ in 0..salt {
        text.push(b's')?;
    }
    Ok(())
}

fn push_drop(text: &mut Vec<u8>, point: At) -> Result<(), Fail> {
    text.extend_from_slice(b"\x00\x00\x00\x21\x14")?;
    push_point(text, point)?;
    text.extend_from_slice(b"\x02\x00\x0fbob@EXAMPLE.ORG\x00\x00")?;
    Ok(())
}

/// The row of eve behind its length.
fn push_row(text: &mut Vec<u8>, salt: u16) -> Result<(), Fail> {
    let length = salt.saturating_add(85);
    text.extend_from_slice(&length.to_be_bytes())?;
    text.extend_from_slice(FRONT)?;
    push_salt(text, salt)?;
    // no wrapped key, no policy, no remembered keys
    text.extend_from_slice(&[0; 6])?;
    Ok(())
}

fn push_put(text: &mut Vec<u8>, point: At, salt: u16) -> Result<(), Fail> {
    let length = salt as u32 + 118;
    text.extend_from_slice(&length.to_be_bytes())?;
    text.push(0x14)?;
    push_point(text, point)?;
    text.extend_from_slice(b"\x01\x00\x0feve@EXAMPLE.ORG")?;
    push_row(text, salt)
}

fn push_update(text: &mut Vec<u8>, update: &Update) -> Result<(), Fail> {
    match update {
        Update::Drops(point) => push_drop(text, *point),
        Update::Puts(point, salt) => push_put(text, *point, *salt),
    }
}

fn push_head(text: &mut Vec<u8>, code: u8, asked: At, count: u8) -> Result<(), Fail> {
    text.extend_from_slice(&[0, 0, 0, 18, 0x11, code])?;
    push_point(text, asked)?;
    text.extend_from_slice(&[0, 0, 0, count])?;
    Ok(())
}

fn push_updates(text: &mut Vec<u8>, asked: At, updates: &[Update]) -> Result<(), Fail> {
    let count = match u8::try_from(updates.len()) {
        Ok(count) => count,
        Err(_) => 255,
    };
    push_head(text, 0, asked, count)?;
    for update in updates {
        push_update(text, update)?;
    }
    Ok(())
}

fn push_reply(text: &mut Vec<u8>, reply: &Reply) -> Result<(), Fail> {
    match reply {
        Reply::Updates(asked, updates) => push_updates(text, *asked, updates),
        Reply::Busy(asked) => push_head(text, 3, *asked, 0),
        Reply::Denied(asked) => push_head(text, 5, *asked, 0),
    }
}

/// The frames of the reply.
pub(crate) fn frames_of(alloc: Global, reply: &Reply) -> Result<Vec<u8>, Fail> {
    let mut text = Vec::new(alloc);
    push_reply(&mut text, reply)?;
    Ok(text)
}

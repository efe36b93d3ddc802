//! The texts of replies.

ghost use Rattle.std.specs.Prelude.{◌≡◌, ◌++◌, IfOk, OnOk};
ghost use Rattle.kadm_replies.specs.Refusals.{refusal_text};
ghost use Rattle.kadm_replies.specs.Replies.{data_text, end_text, reply_text};

use crate::lists::{letters_text, push_extracts, push_names, push_policy, push_strings};
use crate::masters::{push_added, push_masters, push_purged, push_purges, push_totals, push_used};
use crate::princs::push_shown;
use crate::refusals::print_refusal;
use crate::texts::{push, push_done, push_field};
use kadm_commands::Reply;
use kdb_base::{Blob, MemoryOut, Refusal};
use std::alloc::Global;

fn push_refusal(alloc: Global, out: &mut Vec<u8>, refusal: &Refusal) -> Result<(), MemoryOut>
    ensures { OnOk result (out.new.items ≡ out.old.items ++ refusal_text refusal.now) }
{
    let text = print_refusal(alloc, refusal)?;
    push(out, text.as_slice())?;
    Ok(())
}

// The lines of data.
#[tactic(auto, unfolding(crate::specs::Replies::data_text))]
fn push_data(alloc: Global, out: &mut Vec<u8>, reply: &Reply) -> Result<(), MemoryOut>
    ensures { OnOk result (out.new.items ≡ out.old.items ++ data_text reply.now) }
{
    match reply {
        Reply::Shown(princ) => push_shown(alloc, out, princ),
        Reply::Listed(names) => push_names(out, names.as_slice()),
        Reply::Strings(attributes) => push_strings(out, attributes.as_slice()),
        Reply::Extracted(extracts) => push_extracts(alloc, out, extracts.as_slice()),
        Reply::PolicyShown(policy) => push_policy(alloc, out, policy),
        Reply::Privileges(letters) => {
            push_field(out, b"privileges", letters_text(letters.as_slice()))
        }
        Reply::MastersListed(rows) => push_masters(alloc, out, rows.as_slice()),
        Reply::MastersPurged(_, rows) => push_purges(alloc, out, rows.as_slice()),
        _ => Ok(()),
    }
}

// The last line.
#[tactic(auto, unfolding(crate::specs::Replies::end_text))]
fn push_end(alloc: Global, out: &mut Vec<u8>, reply: &Reply) -> Result<(), MemoryOut>
    ensures { OnOk result (out.new.items ≡ out.old.items ++ end_text reply.now) }
{
    match reply {
        Reply::Done(point) => push_done(alloc, out, point),
        Reply::MasterAdded(point, version) => push_added(alloc, out, point, *version),
        Reply::MasterUsed(point, version, secs) => push_used(alloc, out, point, *version, *secs),
        Reply::MastersPurged(point, rows) => push_purged(alloc, out, point, rows.as_slice()),
        Reply::Rekeyed(totals) => push_totals(alloc, out, totals),
        Reply::Refused(refusal) => push_refusal(alloc, out, refusal),
        _ => push(out, b"ok\n"),
    }
}

/// The text of a reply: its lines of data, and a last line that says `ok` or `err`. Times are civil ones, and
/// `never` stands for 0. Only want of memory can refuse it.
#[tactic(auto, unfolding(crate::specs::Replies::reply_text))]
pub fn print_reply(alloc: Global, reply: &Reply) -> Result<Blob, MemoryOut>
    ensures { IfOk result (λ text. text ≡ reply_text reply.now) }
{
    let mut out = Vec::new(alloc);
    push_data(alloc, &mut out, reply)?;
    push_end(alloc, &mut out, reply)?;
    Ok(Blob::from_vec(out))
}

ghost use Rattle.std.specs.Prelude.{◌≡◌, ◌+◌, ◌-◌, ◌<◌, ◌≤◌, [], true, false, None, length};
ghost use Rattle.std.specs.Prelude.{take, drop, slice_range, IfOk, IfSome, OnErr, OnOk, IsTrue};
ghost use Rattle.kdb_base.specs.Limits.{longest_line};
ghost use Rattle.kdb_base.specs.Causes.{HasCause};
ghost use Rattle.kdb_ports.specs.Told.{before_told, IsSpent};
ghost use Rattle.kadm_lines.specs.Windows.{Parts, lacks_feed};

use kdb_base::MemoryOut;
use kdb_base::limits::MAX_LINE_LEN;
use kdb_ports::{ReadFailed, Source};
use memchr::memchr;
use std::alloc::Global;
use std::marker::Model;

/// How many bytes a window holds.
const ROOM: usize = 2 * MAX_LINE_LEN;

/// So many bytes.
fn blank(alloc: Global, size: usize) -> Result<Vec<u8>, MemoryOut>
    ensures { IfOk result (λ bytes. length bytes.items ≡ size) }
{
    let bytes = vec![in alloc; 0u8; size]?;
    Ok(bytes)
}

/// The place of the first line feed.
fn find_feed(bytes: &[u8]) -> Option<usize>
    ensures within { IfSome result (λ place. place < length bytes.now) }
    ensures feed { IfSome result (λ place. Parts bytes.now (take place bytes.now) (drop (place + 1) bytes.now)) }
    ensures none { result ≡ None → lacks_feed bytes.now ≡ true }
{
    memchr(b'\n', bytes)
}

/// Moves the bytes of a range to the front.
fn move_front(bytes: &mut [u8], start: usize, end: usize)
    requires order { start ≤ end }
    requires bound { end ≤ length bytes.old }
    ensures { take (end - start) bytes.new ≡ slice_range bytes.old start end }
{
    bytes.copy_within(start..end, 0);
}

/// Reads into the bytes of a range, and leaves those before it.
fn read_into<S: Source>(
    source: &mut S,
    bytes: &mut [u8],
    from: usize,
    to: usize,
) -> Result<usize, ReadFailed>
    requires order { from < to }
    requires bound { to ≤ length bytes.old }
    ensures kept { take from bytes.new ≡ take from bytes.old }
    ensures bound { IfOk result (λ n. n ≤ to - from) }
    ensures bytes { IfOk result
        (λ n. S.left source.old ≡ before_told (slice_range bytes.new from (from + n)) (S.left source.new)) }
    ensures end { IfOk result (λ n. n ≡ 0 → IsSpent (S.left source.new)) }
    ensures err { OnErr result (S.left source.new ≡ S.left source.old) }
    ensures cause { HasCause (S.faults source.old) (S.faults source.new) result }
{
    source.read(&mut bytes[from..to])
}

/// The bytes that were taken and not given, and the text that was given last, in one buffer.
#[derive(Drop)]
pub struct Window {
    bytes: Vec<u8>,
    /// The text given last is `bytes[text..text_end]`.
    text: usize,
    text_end: usize,
    /// The bytes that are pending are `bytes[start..end]`.
    start: usize,
    /// No byte of `bytes[start..clear]` is a line feed, so none is looked at twice.
    clear: usize,
    end: usize,
}

impl Model for Window {
    ghost use Rattle.std.specs.Prelude.{◌-◌, slice_range};
    ghost use Rattle.kadm_lines.specs.Windows.{IsWindow, WindowState};

    ghost Value = { WindowState };

    ghost view = { λ w. record {
      text = slice_range w.bytes.items w.text w.text_end;
      pending = slice_range w.bytes.items w.start w.end;
      room = 131072 - w.end;
    } };

    ghost invariant = { λ w. IsWindow w.bytes.items w.text w.text_end w.start w.clear w.end };
}

impl Window {
    /// An empty window. Only want of memory can refuse it.
    pub fn new(alloc: Global) -> Result<Window, MemoryOut>
        ensures { IfOk result (λ w. w ≡ record { text = []; pending = []; room = 131072 }) }
    {
        let bytes = blank(alloc, ROOM)?;
        Ok(Window {
            bytes,
            text: 0,
            text_end: 0,
            start: 0,
            clear: 0,
            end: 0,
        })
    }

    /// The text that was cut off last.
    pub fn text(&self) -> &[u8]
        ensures { result.now ≡ self.now.text }
    {
        &self.bytes[self.text..self.text_end]
    }

    /// How many bytes the text has.
    pub fn text_len(&self) -> usize
        ensures { result ≡ length self.now.text }
    {
        self.text_end - self.text
    }

    /// How many bytes are pending.
    pub fn pending_len(&self) -> usize
        ensures { result ≡ length self.now.pending }
    {
        self.end - self.start
    }

    /// Lets go of the text.
    pub fn forget_text(&mut self)
        ensures text { self.new.text ≡ [] }
        ensures pending { self.new.pending ≡ self.old.pending }
    {
        self.text = 0;
        self.text_end = 0;
    }

    /// Lets go of all bytes.
    pub fn discard(&mut self)
        ensures text { self.new.text ≡ [] }
        ensures pending { self.new.pending ≡ [] }
    {
        self.text = 0;
        self.text_end = 0;
        self.start = self.end;
        self.clear = self.end;
    }

    /// Makes one text of all that is pending.
    pub fn take_rest(&mut self)
        ensures text { self.new.text ≡ self.old.pending }
        ensures pending { self.new.pending ≡ [] }
    {
        self.text = self.start;
        self.text_end = self.end;
        self.start = self.end;
        self.clear = self.end;
    }

    /// Cuts off the line that the first line feed ends, as the text, and tells whether there is one.
    pub fn cut_line(&mut self) -> bool
        ensures cut { IsTrue result → Parts self.old.pending self.new.text self.new.pending }
        ensures clear { result ≡ false → lacks_feed self.new.pending ≡ true }
        ensures kept { result ≡ false → self.new.pending ≡ self.old.pending }
        ensures no_text { result ≡ false → self.new.text ≡ [] }
    {
        match find_feed(&self.bytes[self.clear..self.end]) {
            Some(place) => {
                let feed = self.clear + place;
                self.text = self.start;
                self.text_end = feed;
                self.start = feed + 1;
                self.clear = feed + 1;
                true
            }
            None => {
                self.text = 0;
                self.text_end = 0;
                self.clear = self.end;
                false
            }
        }
    }

    /// Makes room for a read. What is pending is moved only where as many bytes lie in front of it, so
    /// no more bytes are moved than were taken.
    fn make_room(&mut self)
        requires { length self.old.pending ≤ longest_line }
        ensures text { self.new.text ≡ [] }
        ensures pending { self.new.pending ≡ self.old.pending }
        ensures room { 0 < self.new.room }
    {
        self.text = 0;
        self.text_end = 0;
        if self.start >= MAX_LINE_LEN {
            move_front(&mut self.bytes, self.start, self.end);
            self.end -= self.start;
            self.clear -= self.start;
            self.start = 0;
        }
    }

    /// Reads behind what is pending, at most so many bytes.
    pub fn read<S: Source>(&mut self, source: &mut S, limit: usize) -> Result<usize, ReadFailed>
        requires short { length self.old.pending ≤ longest_line }
        requires limit { 0 < limit }
        ensures text { self.new.text ≡ [] }
        ensures bound { IfOk result (λ n. n ≤ limit) }
        ensures count { IfOk result (λ n. length self.new.pending ≡ length self.old.pending + n) }
        ensures kept { OnOk result (take (length self.old.pending) self.new.pending ≡ self.old.pending) }
        ensures bytes { IfOk result (λ n.
            S.left source.old ≡ before_told (drop (length self.old.pending) self.new.pending) (S.left source.new)) }
        ensures end { IfOk result (λ n. n ≡ 0 → IsSpent (S.left source.new)) }
        ensures err { OnErr result (S.left source.new ≡ S.left source.old) }
        ensures err_pending { OnErr result (self.new.pending ≡ self.old.pending) }
        ensures cause { HasCause (S.faults source.old) (S.faults source.new) result }
    {
        self.make_room();
        let from = self.end;
        let to = from + limit.min(ROOM - from);
        match read_into(source, &mut self.bytes, from, to) {
            Ok(count) => {
                self.end += count;
                Ok(count)
            }
            Err(fault) => Err(fault),
        }
    }
}

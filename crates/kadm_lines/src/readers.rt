ghost use Rattle.std.specs.Prelude.{◌≡◌, ◌≢◌, ◌+◌, ◌-◌, ◌*◌, ◌<◌, ◌≤◌, [], true, false, None};
ghost use Rattle.std.specs.Prelude.{length, option_map, IfOk, IfSome, OnErr, OnOk, IsTrue};
ghost use Rattle.kdb_base.specs.Limits.{longest_line};
ghost use Rattle.kdb_base.specs.Causes.{Rose};
ghost use Rattle.kdb_ports.specs.Told.{IsSpent};
ghost use Rattle.kadm_lines.specs.Reader.{Advances, IsDone, to_come, is_last, has_text, turns_left, work_left};
ghost use Rattle.kadm_lines.specs.Steps.{Answers, Gives, Keeps, Waits, line_seen};
ghost use Rattle.kadm_lines.specs.Windows.{lacks_feed};

use crate::windows::Window;
use kdb_base::MemoryOut;
use kdb_base::limits::MAX_LINE_LEN;
use kdb_ports::Source;
use std::alloc::Global;
use std::marker::Model;
use thiserror::Error;

/// How many bytes are taken from a source at most.
const INPUT_LIMIT: u64 = 4294967296;

/// What a reader came to. `ended` tells whether a line feed ended the line.
#[derive(Clone, Copy, Debug, PartialEq, Eq)]
pub enum NextLine {
    /// A line. Its text is the reader's.
    Line { ended: bool },
    /// A line that has more than 65536 bytes before its line feed or the end. It was skipped.
    TooLong { ended: bool },
    /// The input has no more lines.
    End,
}

/// Why a reader did not come to the next line.
#[derive(Clone, Copy, Debug, PartialEq, Eq, Error)]
pub enum IntakeFault {
    /// The source failed. The next call reads on.
    #[error("the read failed")]
    ReadFault,
    /// 4294967296 bytes were taken, and no end had come.
    #[error("the input is too long")]
    InputTooLong,
}

/// Reads an input line by line, in a buffer that does not grow.
#[derive(Drop)]
pub struct LineReader {
    window: Window,
    skipping: bool,
    over: bool,
    taken: u64,
}

impl Model for LineReader {
    ghost use Rattle.std.specs.Prelude.{◌≤◌, ◌<◌, IsTrue};
    ghost use Rattle.kadm_lines.specs.Reader.{ReaderState};

    ghost Value = { ReaderState };

    ghost view = { λ r. record {
      text = r.window.text;
      skipping = r.skipping;
      pending = r.window.pending;
      over = r.over;
      taken = r.taken;
    } };

    ghost invariant = { λ r. (r.taken ≤ 4294967296) × (IsTrue r.over → r.taken < 4294967296) };
}

impl LineReader {
    /// A reader at the front of an input. Only want of memory can refuse it.
    pub fn new(alloc: Global) -> Result<LineReader, MemoryOut>
        ensures { IfOk result (λ r. r ≡ record { text = []; skipping = false; pending = []; over = false; taken = 0 }) }
    {
        let window = Window::new(alloc)?;
        Ok(LineReader {
            window,
            skipping: false,
            over: false,
            taken: 0,
        })
    }

    /// The text of the line that `advance` gave last, without its line feed. It is empty where the last
    /// answer was no line.
    pub fn text(&self) -> &[u8]
        ensures { result.now ≡ self.now.text }
    {
        self.window.text()
    }

    /// Answers the line whose bytes were cut off as the text.
    fn judge(&mut self) -> NextLine
        ensures line { Answers result self.new.text
            (line_seen self.old.skipping (record { bytes = self.old.text; ended = true })) }
        ensures short { length self.new.text ≤ longest_line }
        ensures no_text { has_text result ≡ false → self.new.text ≡ [] }
        ensures more { is_last result ≡ false }
        ensures within { self.new.skipping ≡ false }
        ensures pending { self.new.pending ≡ self.old.pending }
        ensures over { self.new.over ≡ self.old.over }
        ensures taken { self.new.taken ≡ self.old.taken }
    {
        if self.skipping || self.window.text_len() > MAX_LINE_LEN {
            self.skipping = false;
            self.window.forget_text();
            return NextLine::TooLong { ended: true };
        }
        NextLine::Line { ended: true }
    }

    /// Lets go of what is pending, where it belongs to a line that is too long.
    fn give_up(&mut self)
        requires text { self.old.text ≡ [] }
        requires lacks { lacks_feed self.old.pending ≡ true }
        ensures same { Keeps self.old self.new }
        ensures waits { Waits self.new }
        ensures over { self.new.over ≡ self.old.over }
        ensures taken { self.new.taken ≡ self.old.taken }
        ensures work { work_left self.new ≤ work_left self.old }
    {
        if self.skipping || self.window.pending_len() > MAX_LINE_LEN {
            self.skipping = true;
            self.window.discard();
        }
    }

    /// Takes the next line out of what is pending, where a line feed ends one there.
    fn take_held(&mut self) -> Option<NextLine>
        ensures next { IfSome result (λ n. Gives n self.old self.new) }
        ensures short { length self.new.text ≤ longest_line }
        ensures no_text { IfSome result (λ n. has_text n ≡ false → self.new.text ≡ []) }
        ensures more { IfSome result (λ n. is_last n ≡ false) }
        ensures falls { IfSome result (λ n. work_left self.new < work_left self.old) }
        ensures same { result ≡ None → Keeps self.old self.new }
        ensures waits { result ≡ None → Waits self.new }
        ensures held { result ≡ None → lacks_feed self.old.pending ≡ true }
        ensures over { self.new.over ≡ self.old.over }
        ensures taken { self.new.taken ≡ self.old.taken }
        ensures room { self.new.taken ≤ 4294967296 }
        ensures below { IsTrue self.new.over → self.new.taken < 4294967296 }
        ensures work { work_left self.new ≤ work_left self.old }
    {
        if self.window.cut_line() {
            return Some(self.judge());
        }
        self.give_up();
        None
    }

    /// What is pending at the end of the input: a last line without its line feed, or nothing.
    fn finish(&mut self) -> NextLine
        requires waits { Waits self.old }
        requires over { IsTrue self.old.over }
        ensures next { Gives result self.old self.new }
        ensures short { length self.new.text ≤ longest_line }
        ensures no_text { has_text result ≡ false → self.new.text ≡ [] }
        ensures falls { result ≢ NextLine.End → work_left self.new < work_left self.old }
        ensures done { IsDone self.new }
        ensures over { self.new.over ≡ self.old.over }
        ensures taken { self.new.taken ≡ self.old.taken }
        ensures work { work_left self.new ≤ work_left self.old }
    {
        if self.skipping {
            self.skipping = false;
            return NextLine::TooLong { ended: false };
        }
        if self.window.pending_len() == 0 {
            return NextLine::End;
        }
        self.window.take_rest();
        NextLine::Line { ended: false }
    }

    /// Takes the source's next bytes.
    fn read_on<S: Source>(&mut self, source: &mut S) -> Result<(), IntakeFault>
        requires waits { Waits self.old }
        requires going { self.old.over ≡ false }
        ensures same { to_come self.new (S.left source.new) ≡ to_come self.old (S.left source.old) }
        ensures text { self.new.text ≡ [] }
        ensures spent { IsTrue self.new.over → IsSpent (S.left source.new) }
        ensures taken { option_map (λ xs. length xs + self.old.taken) (S.left source.old)
            ≡ option_map (λ xs. length xs + self.new.taken) (S.left source.new) }
        ensures falls { OnOk result (turns_left self.new < turns_left self.old) }
        ensures work { work_left self.new ≤ work_left self.old }
        ensures room { self.new.taken ≤ 4294967296 }
        ensures too_long { result ≡ Err IntakeFault.InputTooLong → self.new.taken ≡ 4294967296 }
        ensures err_open { OnErr result (self.new.over ≡ false) }
        ensures counts { S.faults source.old ≤ S.faults source.new }
        ensures read_fault { result ≡ Err IntakeFault.ReadFault → Rose (S.faults source.old) (S.faults source.new) }
    {
        let limit = INPUT_LIMIT - self.taken;
        if limit == 0 {
            return Err(IntakeFault::InputTooLong);
        }
        match self.window.read(source, limit as usize) {
            Ok(count) => {
                self.taken += count as u64;
                self.over = count == 0;
                Ok(())
            }
            Err(_) => Err(IntakeFault::ReadFault),
        }
    }

    /// Goes on to the next line. At most 4294967296 bytes are taken from a source, and after its end
    /// it is not read again. A fault of the source, and an input that is too long, lose no line: what
    /// was to come still comes. A loop of calls ends, since `work_left` falls with each line.
    pub fn advance<S: Source>(&mut self, source: &mut S) -> Result<NextLine, IntakeFault>
        ensures next { IfOk result (λ n.
            Advances n self.new.text (to_come self.old (S.left source.old)) (to_come self.new (S.left source.new))) }
        ensures kept { OnErr result (to_come self.new (S.left source.new) ≡ to_come self.old (S.left source.old)) }
        ensures short { length self.new.text ≤ longest_line }
        ensures no_text { IfOk result (λ n. has_text n ≡ false → self.new.text ≡ []) }
        ensures err_text { OnErr result (self.new.text ≡ []) }
        ensures done { IfOk result (λ n. is_last n ≡ true → IsDone self.new) }
        ensures spent { IsTrue self.new.over → (IsTrue self.old.over → IsSpent (S.left source.old))
            → IsSpent (S.left source.new) }
        ensures stays { IsTrue self.old.over → IsTrue self.new.over }
        ensures rests { IsTrue self.old.over → source.new ≡ source.old }
        // A line that was taken whole is answered before the source is read again.
        ensures held { lacks_feed self.old.pending ≡ false → source.new ≡ source.old }
        ensures held_given { lacks_feed self.old.pending ≡ false → OnErr result ⊥ }
        ensures taken { option_map (λ xs. length xs + self.old.taken) (S.left source.old)
            ≡ option_map (λ xs. length xs + self.new.taken) (S.left source.new) }
        ensures room { self.new.taken ≤ 4294967296 }
        ensures below { IsTrue self.new.over → self.new.taken < 4294967296 }
        ensures too_long { result ≡ Err IntakeFault.InputTooLong → self.new.taken ≡ 4294967296 }
        ensures err_open { OnErr result (self.new.over ≡ false) }
        ensures counts { S.faults source.old ≤ S.faults source.new }
        ensures read_fault { result ≡ Err IntakeFault.ReadFault → Rose (S.faults source.old) (S.faults source.new) }
        ensures falls { IfOk result (λ n. n ≢ NextLine.End → work_left self.new < work_left self.old) }
        ensures work { work_left self.new ≤ work_left self.old }
    {
        loop {
            match self.take_held() {
                Some(line) => return Ok(line),
                None => {}
            }
            if self.over {
                return Ok(self.finish());
            }
            match self.read_on(source) {
                Ok(()) => {}
                Err(fault) => return Err(fault),
            }
        }
    }
}

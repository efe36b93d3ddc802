//! Laws of frames. They do no work.

ghost use Rattle.std.specs.Prelude.{◌≡◌, ◌<◌, ◌^◌, ◌+◌, ◌++◌, List, ℕ, false, length, take};
ghost use Rattle.kdb_format.specs.Fields.{IsBytes};
ghost use Rattle.iprop_wire.specs.Beginnings.{IsBeginning};
ghost use Rattle.iprop_wire.specs.Decoding.{Begun, Broken, Going, State, Waits, fed, fresh, taken};
ghost use Rattle.iprop_wire.specs.Due.{is_due, is_due_message};
ghost use Rattle.iprop_wire.specs.Frames.{longest_body};
ghost use Rattle.iprop_wire.specs.Messages.{message_text};
ghost use Rattle.iprop_wire.specs.Spelled.{IsMessage, IsUncut, Spells};
ghost use Rattle.iprop_wire.specs.declared.due.Due.{Due};
ghost use Rattle.iprop_wire.specs.declared.messages.Message.{Message};

/// What bytes lead to does not depend on how they are cut into pieces.
pub fn only_the_bytes_together_count()
    ensures leads { (s : State) (front back : List ℕ) → fed s (front ++ back) ≡ fed (fed s front) back }
    ensures counts { (s : State) (front back : List ℕ)
        → taken s (front ++ back) ≡ taken s front + taken (fed s front) back }
{}

/// What a message spells is that message, whatever follows.
pub fn what_a_message_spells_is_that_message()
    ensures leads { (text rest : List ℕ) (message : Message) → Spells text message
        → fed fresh (text ++ rest) ≡ Waits message }
    ensures counts { (text rest : List ℕ) (message : Message) → Spells text message
        → taken fresh (text ++ rest) ≡ length text }
{}

/// Two messages never have the same text.
pub fn messages_have_their_own_texts()
    ensures { (text : List ℕ) (a b : Message) → Spells text a → Spells text b → a ≡ b }
{}

/// What is handed out as a message spells it, each byte of it.
pub fn what_is_handed_out_is_spelled_so()
    ensures { (text : List ℕ) (message : Message) → IsBytes text → fed fresh text ≡ Waits message
        → Spells (take (taken fresh text) text) message }
{}

/// No message begins with bytes that are refused.
pub fn no_message_begins_with_refused_bytes()
    ensures { (text rest : List ℕ) (message : Message) → fed fresh text ≡ Broken → Spells (text ++ rest) message → ⊥ }
{}

/// Bytes that are taken begin a message, as far as they are judged.
pub fn bytes_that_are_taken_begin_a_message()
    ensures { (text : List ℕ) (begun : Begun) (held : List ℕ) → IsBytes text → length text < 2 ^ 63
        → fed fresh text ≡ Going begun held → IsBeginning text }
{}

/// No more is held than a frame: its length, and its body but for the last byte.
pub fn no_more_than_a_frame_is_held()
    ensures { (text : List ℕ) (begun : Begun) (held : List ℕ) → IsBytes text → fed fresh text ≡ Going begun held
        → length held < 4 + longest_body }
{}

/// What is written of a message spells it.
pub fn what_is_written_spells_the_message()
    ensures { (message : Message) → IsMessage message → Spells (message_text message) message }
{}

/// A message that is no dump has one text, the one that is written.
pub fn all_but_dumps_have_one_text()
    ensures { (text : List ℕ) (message : Message) → IsUncut message → Spells text message
        → text ≡ message_text message }
{}

/// What is not due stays so, whatever follows, and no message that is due begins so.
pub fn what_is_not_due_stays_so()
    ensures stays { (due : Due) (s : State) (bytes : List ℕ) → is_due due s ≡ false → is_due due (fed s bytes) ≡ false }
    ensures none { (due : Due) (text rest : List ℕ) (message : Message) → is_due due (fed fresh text) ≡ false
        → Spells (text ++ rest) message → is_due_message due message ≡ false }
{}

ghost use Rattle.std.specs.Prelude.{◌≡◌, ◌≤◌, ◌⊎◌, map, option_map};
ghost use Rattle.kdb_base.specs.Causes.{Rose};
ghost use Rattle.kdb_ports.specs.Told.{after_told};
ghost use Rattle.kdb_ports.specs.Parts.{SaidPart};
ghost use Rattle.kadm_top.specs.Words.{alone_text, text_for};

use crate::words::is_word;
use kdb_base::Status;
use kdb_ports::{Sink, write_whole};

/// The answer to `--help`.
pub const USAGE: &[u8] = b"\
kdb_tool keeps the principal database of the folder that it is started in.
usage:
  kdb_tool create REALM [-P PASS] [-e ETYPE] [-ulogsize N] [--]
                                makes a database of this realm: its master key
                                is made of PASS, else at random, and is of type
                                ETYPE, else aes256-cts; its log holds N entries,
                                else 1000
  kdb_tool admin [-ulogsize N] [--]
                                answers the lines of standard input; a log that
                                does not hold N entries is begun anew
  kdb_tool add_mkey [-e ETYPE]  adds a master key, which is not active yet
  kdb_tool use_mkey V [TIME]    makes version V active at TIME, else now
  kdb_tool list_mkeys           lists the master keys
  kdb_tool purge_mkeys [-f]     deletes the master keys that do not serve
  kdb_tool stash                writes the stash anew with all master keys
  kdb_tool update_princ_encryption [-f] [GLOB]
                                moves the principals whose names match GLOB,
                                else all, under the active master key
  kdb_tool dump [--]            writes the whole database as text
  kdb_tool load [--]            reads a dump from standard input and puts it in
                                the place of all that the database has
  kdb_tool kproplog [--]        lists the entries that the update log holds
  kdb_tool kproplog -R [--]     begins the update log anew
  kdb_tool report [--] KIND     writes a table of KIND: principals, keys,
                                policies or masters
  kdb_tool ktadd -norandkey [--] NAME
                                reads a keytab from standard input and writes it
                                with the keys that NAME has behind the others
  kdb_tool ktadd [-e LIST] [--] NAME
                                the same with new keys, which are made for NAME
                                and are of the types of LIST
  kdb_tool ktremove [--] NAME WHICH
                                reads a keytab from standard input and writes it
                                without the entries of NAME that WHICH names:
                                all, old or a version
  kdb_tool generate [--] SEED COUNT
                                makes a script of 1 to 1000 commands, runs it
                                over a database of its own in memory and counts
                                what is answered
  kdb_tool destroy [-f] [--]    ends the database; -f has no effect
  kdb_tool --help               prints this
  kdb_tool --version            prints the version
N is 2 to 10000. docs/COMMANDS.md describes the lines, the replies and the status.
";

/// The answer to `--version`.
pub const VERSION: &[u8] = b"kdb_tool 0.1.0\n";

/// What a word asks for that stands alone.
fn text_for(word: &[u8]) -> Option<&'static [u8]>
    ensures { option_map (λ text. text.now) result ≡ text_for word.now }
{
    if is_word(word, b"--help") {
        return Some(USAGE);
    }
    if is_word(word, b"--version") {
        return Some(VERSION);
    }
    None
}

/// The text that is asked for where the words are `--help` or `--version` and no other, for which no
/// file is wanted.
#[tactic(auto, unfolding(crate::specs::Words::alone_text))]
pub fn text_alone(words: &[Vec<u8>]) -> Option<&'static [u8]>
    ensures { option_map (λ text. text.now) result ≡ alone_text (map (λ word. word.items) words.now) }
{
    match words {
        [word] => text_for(word.as_slice()),
        _ => None,
    }
}

/// Writes a text, and answers the status of a run that does no more.
pub fn say_text<K: Sink>(sink: &mut K, text: &[u8]) -> Status
    ensures whole { result ≡ Status.Done → K.taken sink.new ≡ after_told (K.taken sink.old) text.now }
    ensures part { result ≡ Status.WriteFault → SaidPart text.now (K.taken sink.old) (K.taken sink.new) }
    ensures either { (result ≡ Status.Done) ⊎ (result ≡ Status.WriteFault) }
    ensures later { K.faults sink.old ≤ K.faults sink.new }
    ensures cause { result ≡ Status.WriteFault → Rose (K.faults sink.old) (K.faults sink.new) }
{
    match write_whole(sink, text) {
        Ok(()) => Status::Done,
        Err(_) => Status::WriteFault,
    }
}

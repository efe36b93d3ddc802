//! Laws of lines. They do no work.

ghost use Rattle.std.specs.Prelude.{List, ℕ, ◌≡◌, ◌↔◌, Some, None, Ok, Err};
ghost use Rattle.kadm_commands.specs.Commands.{IsCommand};
ghost use Rattle.kadm_commands.specs.declared.commands.Command.{Command};
ghost use Rattle.kadm_wire.specs.LineReadings.{line_reading, reading};
ghost use Rattle.kadm_wire.specs.Lines.{IsReading};
ghost use Rattle.kadm_wire.specs.declared.readings.Reading.{Reading};
ghost use Rattle.kadm_wire.specs.declared.readings.Reading.TheVariants.{Skipped, Says, Refuses};
ghost use Rattle.kdb_base.specs.declared.outcomes.Refusal.{Refusal};

/// A line has one reading at most in a database of a realm: it is skipped, it says one command, or it is
/// refused for one cause.
pub fn line_has_one_reading()
    ensures { (line realm : List ℕ) (a b : Reading) → IsReading line realm a → IsReading line realm b → a ≡ b }
{}

/// Each line has exactly one reading in a database of a realm, and `line_reading` is that one.
pub fn line_has_its_reading()
    ensures read { (realm line : List ℕ) → IsReading line realm (line_reading realm line) }
    ensures only { (realm line : List ℕ) (said : Reading) → IsReading line realm said → said ≡ line_reading realm line }
{}

/// So a line says a command, is passed over or is refused just where `reading` answers so.
pub fn reading_answers_as_the_line_says()
    ensures command { (realm line : List ℕ) (command : Command)
        → (reading realm line ≡ Ok (Some command)) ↔ IsReading line realm (Says command) }
    ensures skipped { (realm line : List ℕ)
        → (reading realm line ≡ Ok None) ↔ IsReading line realm Skipped }
    ensures refused { (realm line : List ℕ) (refusal : Refusal)
        → (reading realm line ≡ Err refusal) ↔ IsReading line realm (Refuses refusal) }
{}

/// A command that is read has names of the realm, known flags and values in their ranges.
pub fn reading_gives_commands()
    ensures { (realm line : List ℕ) (command : Command) → reading realm line ≡ Ok (Some command)
        → IsCommand realm command }
{}

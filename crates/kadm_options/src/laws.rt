//! Laws of options. They do no work.

ghost use Rattle.std.specs.Prelude.{List, ℕ, ◌≡◌, ◌↔◌, Option, Some, None};
ghost use Rattle.kadm_options.specs.OptionValues.{AreReadable, IsFirstBad, SpellsField, SpellsValue, SpellsWithin};
ghost use Rattle.kadm_options.specs.OptionValues.{SpellsWordOf, first_bad_in, number_within, seconds_given, word_given};
ghost use Rattle.kadm_options.specs.Options.{OptionParts, SpellsParts, options_in};
ghost use Rattle.kadm_options.specs.declared.options.Given.{Given};
ghost use Rattle.kadm_options.specs.declared.options.Opening.{Opening};
ghost use Rattle.kadm_options.specs.declared.options.OptionName.{OptionName};
ghost use Rattle.kadm_options.specs.declared.options.ValueKind.{ValueKind};
ghost use Rattle.kdb_base.specs.declared.outcomes.Field.{Field};

/// The options that are read in front of words are those that the words spell, whatever each word says.
pub fn options_are_spelled()
    ensures { (named : List ℕ → Option Opening) (words : List (List ℕ)) (parts : OptionParts)
        → (options_in named words ≡ Some parts) ↔ SpellsParts named parts words }
{}

/// A word spells one value of a kind at most.
pub fn word_spells_one_value()
    ensures { (kind : ValueKind) (word : List ℕ) (a b : ℕ) → SpellsValue kind word a → SpellsValue kind word b → a ≡ b }
{}

/// The first bad value is found just where there is one.
pub fn first_bad_value_is_found()
    ensures bad { (options : List Given) (field : Field)
        → (first_bad_in options ≡ Some field) ↔ IsFirstBad options field }
    ensures readable { (options : List Given) → (first_bad_in options ≡ None) ↔ AreReadable options }
{}

/// The seconds of an option are those that the options spell.
pub fn seconds_are_spelled()
    ensures { (option : OptionName) (options : List Given) (found : Option ℕ)
        → (seconds_given option options ≡ found) ↔ SpellsField option options found }
{}

/// The word of an option is that of the first one of its name.
pub fn words_are_spelled()
    ensures { (option : OptionName) (options : List Given) (found : Option (List ℕ))
        → (word_given option options ≡ found) ↔ SpellsWordOf option options found }
{}

/// A number is read within its range just where the word spells it.
pub fn numbers_are_spelled()
    ensures { (least most : ℕ) (word : List ℕ) (number : ℕ)
        → (number_within least most word ≡ Some number) ↔ SpellsWithin least most word number }
{}

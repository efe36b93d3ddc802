//! Laws of the words of names. They do no work.

ghost use Rattle.std.specs.Prelude.{List, ℕ, ◌≡◌, ◌≢◌, ◌≤◌, ◌↔◌, ◌++◌, ◌∷◌, [], true, None, Some, Ok, Err, length};
ghost use Rattle.std.specs.List.{list_all};
ghost use Rattle.princ_name.specs.Answers.{IsRefusedAt};
ghost use Rattle.princ_name.specs.Bytes.{can_stand};
ghost use Rattle.princ_name.specs.Equal.{same_name};
ghost use Rattle.princ_name.specs.Faults.{first_fault};
ghost use Rattle.princ_name.specs.Names.{NameParts, IsName, printed, printed_parts};
ghost use Rattle.princ_name.specs.PatternReadings.{pattern_in};
ghost use Rattle.princ_name.specs.Patterns.{SpellsPattern};
ghost use Rattle.princ_name.specs.Readings.{is_name, own_name_in};
ghost use Rattle.princ_name.specs.RealmNames.{name_in};
ghost use Rattle.princ_name.specs.Realms.{IsRealm};
ghost use Rattle.princ_name.specs.Shape.{PatternShape};
ghost use Rattle.princ_name.specs.Spelling.{Spells};

/// A word spells one name at most.
pub fn word_spells_one_name()
    ensures { (word given : List ℕ) (a b : NameParts) → Spells word given a → Spells word given b → a ≡ b }
{}

/// A word spells a name exactly where it has no fault, whatever the limits of names say of that name.
pub fn spelled_word_has_no_fault()
    ensures faultless { (word given : List ℕ) (name : NameParts) → Spells word given name → first_fault word ≡ None }
    ensures spelled { (word given : List ℕ) → first_fault word ≡ None → (name : NameParts) × Spells word given name }
{}

/// The printed form of a name spells it, whatever realm is given. So a name that is printed and read
/// is the name again.
pub fn printed_form_spells_the_name()
    ensures { (name : NameParts) (given : List ℕ) → IsName name → Spells (printed name) given name }
{}

/// Names with one printed form are one name.
pub fn printed_form_has_one_name()
    ensures { (a b : NameParts) → IsName a → IsName b → printed a ≡ printed b → a ≡ b }
{}

/// The test of the limits of names passes exactly the names within them.
pub fn limits_are_tested()
    ensures { (name : NameParts) → (is_name name ≡ true) ↔ IsName name }
{}

/// What is read of a word is the one name of the given realm that it spells within the limits, and a
/// refusal is read just where there is no such name, with its place.
pub fn own_name_is_spelled()
    ensures name { (word given : List ℕ) (name : NameParts)
        → (own_name_in word given ≡ Ok name) ↔ (Spells word given name × IsName name × (name.realm ≡ given)) }
    ensures refusal { (word given : List ℕ) (place : ℕ)
        → (own_name_in word given ≡ Err place) ↔ IsRefusedAt word given place }
{}

/// A realm of a database prints as it is, so a name in it prints as its components do, an `@` and the
/// realm; and components of few and short enough bytes of names are those of a name in every realm.
pub fn realms_print_as_they_are()
    ensures prints { (parts : List (List ℕ)) (realm : List ℕ) → IsRealm realm
        → printed (name_in parts realm) ≡ printed_parts parts ++ 64 ∷ realm }
    ensures names { (parts : List (List ℕ)) (realm : List ℕ) → IsRealm realm → parts ≢ [] → length parts ≤ 16
        → list_all (list_all can_stand) parts ≡ true
        → length (printed_parts parts) ≤ 190 → IsName (name_in parts realm) }
{}

/// A word has the pattern that it spells, and no other.
pub fn word_has_its_pattern()
    ensures { (word given : List ℕ) (pattern : PatternShape)
        → (pattern_in word given ≡ Some pattern) ↔ SpellsPattern word given pattern }
{}

/// Names are equal exactly where they have one realm and the same components.
pub fn equal_names_are_one()
    ensures { (a b : NameParts) → (same_name a b ≡ true) ↔ (a ≡ b) }
{}

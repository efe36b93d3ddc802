//! Laws of the words of rules. They do no work.

ghost use Rattle.std.specs.Prelude.{List, ℕ, ◌≡◌, ◌<◌, ◌^◌, ◌↔◌, IfSome, Option, Some, bit_and, true};
ghost use Rattle.std.specs.List.{filter_map};
ghost use Rattle.acl_text.specs.Limits.{IsLimits};
ghost use Rattle.acl_text.specs.Patterns.{pattern_matches};
ghost use Rattle.acl_text.specs.Restricting.{restricted};
ghost use Rattle.acl_text.specs.Restrictions.{limits_in, restrictions};
ghost use Rattle.acl_text.specs.declared.limits.Limits.{Limits as LimitsShape};
ghost use Rattle.acl_text.specs.declared.limits.Wanted.{Wanted as WantedShape};
ghost use Rattle.kadm_options.specs.OptionValues.{flag_of};
ghost use Rattle.kadm_options.specs.Options.{OptionParts, option_named, options_in};
ghost use Rattle.kadm_values.specs.Flags.{with_flags};
ghost use Rattle.princ_name.specs.Names.{NameParts};
ghost use Rattle.princ_name.specs.Patterns.{Matches};
ghost use Rattle.princ_name.specs.Shape.{PatternShape};

/// The test of a pattern passes the names that it matches.
pub fn pattern_is_tested()
    ensures { (pattern : PatternShape) (name : NameParts)
        → (pattern_matches pattern name ≡ true) ↔ Matches pattern name }
{}

/// The restrictions of words force no bit both on and off.
pub fn no_bit_is_forced_both_ways()
    ensures { (words : List (List ℕ)) (limits : LimitsShape) → limits_in words ≡ Some (Some limits)
        → bit_and limits.set limits.clear ≡ 0 }
{}

/// The flags of restrictions are put in force as the flags of a command are: from the left, so that the last one
/// on a bit decides.
pub fn flags_are_applied_as_those_of_a_command()
    ensures { (words : List (List ℕ)) (parts : OptionParts) (limits : LimitsShape) (secs : ℕ) (wanted : WantedShape)
        → options_in (option_named restrictions true) words ≡ Some parts → limits_in words ≡ Some (Some limits)
        → wanted.attributes < 2 ^ 32
        → (restricted limits secs wanted).attributes ≡ with_flags wanted.attributes (filter_map flag_of parts.options) }
{}

/// The restrictions of words force only what a principal may have.
pub fn restrictions_fit()
    ensures { (words : List (List ℕ)) (limits : Option LimitsShape) → limits_in words ≡ Some limits
        → IfSome limits IsLimits }
{}

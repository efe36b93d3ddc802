//! Commands on many principals, and those without other words.

ghost use Rattle.std.specs.Prelude.{◌≡◌};
ghost use Rattle.std.specs.Option.{option_and_then};
ghost use Rattle.kadm_options.specs.OptionValues.{word_given};
ghost use Rattle.kadm_options.specs.declared.options.OptionName.TheVariants as option;
ghost use Rattle.kadm_values.specs.EtypeWords.{etype_named};
ghost use Rattle.kadm_wire.specs.Commands.{lone_command, names_command};

use crate::verbs::{LoneVerb, NamesVerb};
use kadm_commands::Command;
use kadm_options::{Given, OptionName, find_word};
use kadm_values::read_etype;
use kdb_base::{Blob, Etype};

/// The command on the principals whose names a glob matches, or on all of them.
#[tactic(auto, unfolding(crate::specs::Commands::names_command))]
pub(crate) fn names_command(verb: NamesVerb, glob: Option<Blob>) -> Command
    ensures { result ≡ names_command verb glob }
{
    match verb {
        NamesVerb::List => Command::ListPrincs(glob),
        NamesVerb::Rekey => Command::RekeyPrincs(glob),
    }
}

fn etype_given(options: &[Given]) -> Option<Etype>
    ensures { result ≡ option_and_then etype_named (word_given option.Enctypes options.now) }
{
    match find_word(OptionName::Enctypes, options) {
        Some(word) => read_etype(word),
        None => None,
    }
}

/// The command without other words.
#[tactic(auto, unfolding(crate::specs::Commands::lone_command))]
pub(crate) fn lone_command(verb: LoneVerb, options: &[Given]) -> Command
    ensures { result ≡ lone_command verb options.now }
{
    match verb {
        LoneVerb::ListPolicies => Command::ListPolicies,
        LoneVerb::GetPrivs => Command::GetPrivs,
        LoneVerb::AddMaster => Command::AddMaster(etype_given(options)),
        LoneVerb::ListMasters => Command::ListMasters,
        LoneVerb::PurgeMasters => Command::PurgeMasters,
        LoneVerb::Stash => Command::Stash,
        LoneVerb::Dump => Command::Dump,
    }
}

//! The commands by their words.

ghost use Rattle.std.specs.Prelude.{◌≡◌, find, map, option_map};
ghost use Rattle.std.specs.Str.{bytes_eq};
ghost use Rattle.kadm_wire.specs.Verbs.{verb_named, verb_row, verb_rows};

use kadm_values::bytes::is_same;

/// Commands whose other word is the name of one principal.
#[derive(Clone, Copy)]
pub enum PrincVerb {
    /// `addprinc`.
    Add,
    /// `modprinc`.
    Modify,
    /// `cpw`.
    ChangeKeys,
    /// `delprinc`.
    Delete,
    /// `getprinc`.
    Show,
    /// `purgekeys`.
    PurgeKeys,
    /// `getstrs`.
    ShowStrings,
    /// `extract`.
    Extract,
}

/// Commands whose other word is the name of one policy.
#[derive(Clone, Copy)]
pub enum PolicyVerb {
    /// `addpol`.
    Add,
    /// `modpol`.
    Modify,
    /// `delpol`.
    Delete,
    /// `getpol`.
    Show,
}

/// Commands whose other word is a glob of names, or missing.
#[derive(Clone, Copy)]
pub enum NamesVerb {
    /// `listprincs`.
    List,
    /// `update_princ_encryption`.
    Rekey,
}

/// Commands without other words.
#[derive(Clone, Copy)]
pub enum LoneVerb {
    /// `listpols`.
    ListPolicies,
    /// `getprivs`.
    GetPrivs,
    /// `add_mkey`.
    AddMaster,
    /// `list_mkeys`.
    ListMasters,
    /// `purge_mkeys`.
    PurgeMasters,
    /// `stash`.
    Stash,
    /// `dump`.
    Dump,
}

/// A command, whichever of its words is used, by what its other words are.
#[derive(Clone, Copy)]
pub enum Verb {
    OnPrinc(PrincVerb),
    OnPolicy(PolicyVerb),
    OnNames(NamesVerb),
    Alone(LoneVerb),
    /// `renprinc`, with two names.
    RenPrinc,
    /// `setstr`, with a name, a key and a value.
    SetString,
    /// `delstr`, with a name and a key.
    DelString,
    /// `use_mkey`, with a version, behind which a time may stand.
    UseMaster,
}

/// A word and its command.
#[derive(Clone, Copy)]
pub struct VerbWord {
    /// The word.
    pub word: &'static [u8],
    /// The command.
    pub verb: Verb,
}

static VERB_WORDS: [VerbWord; 43] = [
    VerbWord {
        word: b"addprinc",
        verb: Verb::OnPrinc(PrincVerb::Add),
    },
    VerbWord {
        word: b"add_principal",
        verb: Verb::OnPrinc(PrincVerb::Add),
    },
    VerbWord {
        word: b"ank",
        verb: Verb::OnPrinc(PrincVerb::Add),
    },
    VerbWord {
        word: b"modprinc",
        verb: Verb::OnPrinc(PrincVerb::Modify),
    },
    VerbWord {
        word: b"modify_principal",
        verb: Verb::OnPrinc(PrincVerb::Modify),
    },
    VerbWord {
        word: b"cpw",
        verb: Verb::OnPrinc(PrincVerb::ChangeKeys),
    },
    VerbWord {
        word: b"change_password",
        verb: Verb::OnPrinc(PrincVerb::ChangeKeys),
    },
    VerbWord {
        word: b"renprinc",
        verb: Verb::RenPrinc,
    },
    VerbWord {
        word: b"rename_principal",
        verb: Verb::RenPrinc,
    },
    VerbWord {
        word: b"delprinc",
        verb: Verb::OnPrinc(PrincVerb::Delete),
    },
    VerbWord {
        word: b"delete_principal",
        verb: Verb::OnPrinc(PrincVerb::Delete),
    },
    VerbWord {
        word: b"getprinc",
        verb: Verb::OnPrinc(PrincVerb::Show),
    },
    VerbWord {
        word: b"get_principal",
        verb: Verb::OnPrinc(PrincVerb::Show),
    },
    VerbWord {
        word: b"listprincs",
        verb: Verb::OnNames(NamesVerb::List),
    },
    VerbWord {
        word: b"list_principals",
        verb: Verb::OnNames(NamesVerb::List),
    },
    VerbWord {
        word: b"get_principals",
        verb: Verb::OnNames(NamesVerb::List),
    },
    VerbWord {
        word: b"getprincs",
        verb: Verb::OnNames(NamesVerb::List),
    },
    VerbWord {
        word: b"purgekeys",
        verb: Verb::OnPrinc(PrincVerb::PurgeKeys),
    },
    VerbWord {
        word: b"setstr",
        verb: Verb::SetString,
    },
    VerbWord {
        word: b"delstr",
        verb: Verb::DelString,
    },
    VerbWord {
        word: b"getstrs",
        verb: Verb::OnPrinc(PrincVerb::ShowStrings),
    },
    VerbWord {
        word: b"extract",
        verb: Verb::OnPrinc(PrincVerb::Extract),
    },
    VerbWord {
        word: b"addpol",
        verb: Verb::OnPolicy(PolicyVerb::Add),
    },
    VerbWord {
        word: b"add_policy",
        verb: Verb::OnPolicy(PolicyVerb::Add),
    },
    VerbWord {
        word: b"modpol",
        verb: Verb::OnPolicy(PolicyVerb::Modify),
    },
    VerbWord {
        word: b"modify_policy",
        verb: Verb::OnPolicy(PolicyVerb::Modify),
    },
    VerbWord {
        word: b"delpol",
        verb: Verb::OnPolicy(PolicyVerb::Delete),
    },
    VerbWord {
        word: b"delete_policy",
        verb: Verb::OnPolicy(PolicyVerb::Delete),
    },
    VerbWord {
        word: b"getpol",
        verb: Verb::OnPolicy(PolicyVerb::Show),
    },
    VerbWord {
        word: b"get_policy",
        verb: Verb::OnPolicy(PolicyVerb::Show),
    },
    VerbWord {
        word: b"listpols",
        verb: Verb::Alone(LoneVerb::ListPolicies),
    },
    VerbWord {
        word: b"list_policies",
        verb: Verb::Alone(LoneVerb::ListPolicies),
    },
    VerbWord {
        word: b"get_policies",
        verb: Verb::Alone(LoneVerb::ListPolicies),
    },
    VerbWord {
        word: b"getpols",
        verb: Verb::Alone(LoneVerb::ListPolicies),
    },
    VerbWord {
        word: b"getprivs",
        verb: Verb::Alone(LoneVerb::GetPrivs),
    },
    VerbWord {
        word: b"get_privs",
        verb: Verb::Alone(LoneVerb::GetPrivs),
    },
    VerbWord {
        word: b"add_mkey",
        verb: Verb::Alone(LoneVerb::AddMaster),
    },
    VerbWord {
        word: b"use_mkey",
        verb: Verb::UseMaster,
    },
    VerbWord {
        word: b"list_mkeys",
        verb: Verb::Alone(LoneVerb::ListMasters),
    },
    VerbWord {
        word: b"purge_mkeys",
        verb: Verb::Alone(LoneVerb::PurgeMasters),
    },
    VerbWord {
        word: b"update_princ_encryption",
        verb: Verb::OnNames(NamesVerb::Rekey),
    },
    VerbWord {
        word: b"stash",
        verb: Verb::Alone(LoneVerb::Stash),
    },
    VerbWord {
        word: b"dump",
        verb: Verb::Alone(LoneVerb::Dump),
    },
];

#[tactic(auto, unfolding(crate::specs::Verbs::verb_rows))]
fn known_words() -> &'static [VerbWord; 43]
    ensures { map verb_row result.now ≡ verb_rows }
{
    &VERB_WORDS
}

// The first of these that has this word.
fn find_among(words: &[VerbWord], word: &[u8]) -> Option<VerbWord>
    ensures { result ≡ find (λ row. bytes_eq row.word.now word.now) words.now }
{
    words.iter().copied().find(|row| is_same(row.word, word))
}

/// The command of a word.
pub(crate) fn find_verb(word: &[u8]) -> Option<Verb>
    ensures { result ≡ verb_named word.now }
{
    match find_among(known_words(), word) {
        Some(row) => Some(row.verb),
        None => None,
    }
}

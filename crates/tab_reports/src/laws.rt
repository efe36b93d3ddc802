//! Laws of reports. They do no work.

ghost use Rattle.std.specs.Prelude.{◌≡◌, ℕ, List};
ghost use Rattle.kdb_base.specs.declared.versions.Activation.{Activation};
ghost use Rattle.kdb_base.specs.declared.versions.Master.{Master};
ghost use Rattle.master_keys.specs.Versions.{last_version};
ghost use Rattle.serving_versions.specs.Versions.{cause_from};
ghost use Rattle.tab_reports.specs.Causes.{word_of};
ghost use Rattle.tab_reports.specs.Masters.{cause_word};

/// The cause that a report tells is that by which a purge keeps the version.
pub fn causes_are_those_of_a_purge()
    ensures { (count : ℕ) (masters : List Master) (activations : List Activation) (secs version : ℕ) → cause_word count
        (last_version masters) activations secs version ≡ word_of (cause_from count masters activations secs version) }
{}

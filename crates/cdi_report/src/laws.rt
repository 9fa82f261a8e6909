//! Laws of reports and of what is read, over the definitions alone. A call of one of these does nothing: its contract is the law.
ghost use Rattle.std.specs.Prelude.{◌≡◌, ℕ, List, IfOk, IsTrue, true};
ghost use Rattle.cdi_deployment.specs.Limits.{is_within};
ghost use Rattle.cdi_prepare.specs.Ready.{readied_in};
ghost use Rattle.cdi_run_tables.specs.Numbered.{is_numbered};
ghost use Rattle.cdi_run_tables.specs.Planned.{IsTabled};
ghost use Rattle.cdi_run_tables.specs.Texts.{has_texts};
ghost use Rattle.cdi_run_tables.specs.Sizes.{is_small};
ghost use Rattle.cdi_run_tables.specs.declared.tables.RunTables.{RunTables};
ghost use Rattle.cdi_report.specs.BadScripts.{BadScriptsHaveNames};
ghost use Rattle.cdi_report.specs.Facts.{HasFacts};
ghost use Rattle.cdi_report.specs.WellFormed.{IsWellFormed};
ghost use Rattle.cdi_report.specs.OneReport.{OneReport};
ghost use Rattle.cdi_report.specs.PlaceNames.{PlacesHaveNames};

/// If no write fails and memory does not run out, what is written of a deployment is a function of its bytes, and so is the verdict
/// (Jakarta CDI 4.0, *Problems detected automatically by the container*).
pub fn law_one_report()
    ensures { OneReport }
{}

/// Of a deployment that was read with its scripts, each problem that has a place tells it by names, which have 1 to 255 letters:
/// where a name belongs, there is never an empty text
/// (Jakarta CDI 4.0, *Problems detected automatically by the container*).
pub fn law_places_have_names()
    ensures { PlacesHaveNames }
{
    law_reads_facts();
}

/// What holds of every deployment that was read with its scripts, so that no one who has one need prove it again: no list is
/// longer than its limit, each name in the lists is a name of the table of names, and this table begins with the built-in
/// names and has no text that isn't a name.
pub fn law_reads_facts()
    ensures { (bytes : List ℕ)
        → IfOk (readied_in bytes) (λ r. HasFacts r.deployment) }
{}

/// The class of each built-in exception and of each that the deployment declares has a text in the table of names of what was
/// read.
pub fn law_reads_texts()
    ensures { (bytes : List ℕ)
        → IfOk (readied_in bytes) (λ r. has_texts r.deployment ≡ true) }
{}

/// A script that is bad is told by its name, never by an empty text: the text in the line that tells it is a name.
pub fn law_bad_scripts_have_names()
    ensures { BadScriptsHaveNames }
{}

/// The tables of a deployment whose lists are within their limits are small: at most 4,096 beans, and of each at most 4,294,967,295
/// injected fields.
pub fn law_tables_are_small()
    ensures { (t : RunTables) → IsTabled t → IsTrue (is_within t.deployment) → is_small t ≡ true }
{}

/// The tables of a deployment whose lists are within their limits are numbered: the beans, the steps of each plan, the places of
/// interceptors in them and round observers, and the injected fields of each interceptor have numbers of 32 bits.
pub fn law_tables_are_numbered()
    ensures { (t : RunTables) → IsTabled t → IsTrue (is_within t.deployment) → is_numbered t ≡ true }
{}

/// What a container takes for granted holds of every deployment that was read with its scripts.
pub fn law_reads_well_formed()
    ensures { (bytes : List ℕ) → IfOk (readied_in bytes) IsWellFormed }
{}

//! Laws of the definitions that the contracts cite.
ghost use Rattle.std.specs.Prelude.{◌≡◌, ◌↔◌, ℕ, List, Option, None, Some, IsTrue, false, option_map};
ghost use Rattle.cdi_base.specs.Name.{is_name};
ghost use Rattle.serde_json.specs.Data.{Data, Items};
ghost use Rattle.cdi_deployment.specs.declared.deployment.Deployment.{Deployment as AnyDeployment};
ghost use Rattle.cdi_form.specs.declared.form.Part.{Part as AnyPart};
ghost use Rattle.cdi_deployment.specs.Limits.{is_within};
ghost use Rattle.cdi_form.specs.NamePlaces.{StandsAsName};
ghost use Rattle.cdi_form.specs.Names.{first_bad_name, names_fit};
ghost use Rattle.cdi_deploy.specs.Reading.{deployment_in};
ghost use Rattle.cdi_script.specs.Form.{are_steps};
ghost use Rattle.cdi_prepare.specs.BadStep.{bad_item_from};
ghost use Rattle.cdi_prepare.specs.Hint.{IsHintFor};
ghost use Rattle.cdi_prepare.specs.Kinds.{FitsReading, lists_in};
ghost use Rattle.cdi_prepare.specs.LongList.{first_long_list};
ghost use Rattle.cdi_prepare.specs.declared.hint.Hint.{Hint as AnyHint};

/// What a hint tells fits what [`cdi_deploy::read`] answers: the text is wrong exactly if it is `NotJson`; what stands at its path
/// is, if it is `Shape`; a number or a value, if it is `BadNumber`; a text that is no name, if it is `BadName`; a list that is longer
/// than its limit exactly if it is `TooMany` and not because the table of names is full; and a step only if it is a deployment.
pub fn law_kind()
    ensures { (bytes : List ℕ) (hint : Option AnyHint)
        → IsHintFor bytes hint
        → FitsReading (lists_in bytes) (deployment_in bytes)
        (option_map (λ h. h.mistake) hint) }
{}

/// No bad name is found exactly if the names fit, as [`cdi_deploy::read`] tests it; and one that is found stands in the
/// place of a name and is none.
pub fn law_bad_name()
    ensures none { (d : Data) (part : AnyPart)
        → (first_bad_name d part ≡ None) ↔ IsTrue (names_fit d part) }
    ensures some { (d : Data) (part : AnyPart) (s : List ℕ)
        → first_bad_name d part ≡ Some s
        → StandsAsName s part d × (is_name s ≡ false) }
{}

/// No long list is found exactly if a deployment is within the limits, as [`cdi_deploy::read`] tests it.
pub fn law_long_list()
    ensures { (d : AnyDeployment) → (first_long_list d ≡ None) ↔ IsTrue (is_within d) }
{}

/// No item of an array is found to be no step exactly if all are steps.
pub fn law_bad_step()
    ensures { (items : Items)
        → (bad_item_from 0 items ≡ None) ↔ IsTrue (are_steps items) }
{}

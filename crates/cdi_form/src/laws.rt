//! Laws of the definitions that the contracts cite.
ghost use Rattle.std.specs.Prelude.{◌≡◌, ◌↔◌, ℕ, List, None, Some, IsTrue, false};
ghost use Rattle.cdi_base.specs.Name.{is_name};
ghost use Rattle.serde_json.specs.Data.{Data};
ghost use Rattle.cdi_form.specs.HasForm.{HasForm};
ghost use Rattle.cdi_form.specs.NamePlaces.{StandsAsName};
ghost use Rattle.cdi_form.specs.Names.{names_fit, first_bad_name};
ghost use Rattle.cdi_form.specs.Shape.{wrong};
ghost use Rattle.cdi_form.specs.declared.form.Part.{Part as AnyPart};

/// No place of a value is wrong exactly if the value is of the form of its part. So a deployment is refused for its
/// shape only if its value isn't of the form of a deployment.
pub fn law_form()
    ensures { (part : AnyPart) (d : Data)
        → (wrong d part ≡ None) ↔ HasForm part d }
{}

/// No bad name is found in a value exactly if each text that stands in the place of a name is one; and one that is found
/// stands in the place of a name and is none.
pub fn law_names()
    ensures fit { (part : AnyPart) (d : Data) → IsTrue (names_fit d part)
        ↔ ((s : List ℕ) → StandsAsName s part d → IsTrue (is_name s)) }
    ensures found { (part : AnyPart) (d : Data) (s : List ℕ)
        → first_bad_name d part ≡ Some s
        → StandsAsName s part d × (is_name s ≡ false) }
{}

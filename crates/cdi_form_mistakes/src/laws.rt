//! Laws of the definitions that the contracts cite.
ghost use Rattle.std.specs.Prelude.{◌≡◌, option_map};
ghost use Rattle.std.specs.Option.{is_none};
ghost use Rattle.serde_json.specs.Data.{Data};
ghost use Rattle.cdi_form.specs.Names.{first_bad_name};
ghost use Rattle.cdi_form.specs.Numbers.{numbers_fit};
ghost use Rattle.cdi_form.specs.Shape.{wrong};
ghost use Rattle.cdi_form.specs.declared.form.Part.{Part as AnyPart};
ghost use Rattle.cdi_form_mistakes.specs.FormMistake.{form_mistake};
ghost use Rattle.cdi_form_mistakes.specs.NameMistake.{name_mistake};
ghost use Rattle.cdi_form_mistakes.specs.NumberMistake.{number_mistake};
ghost use Rattle.cdi_form_mistakes.specs.declared.mistake.FormMistake.TheVariants.{NoName};

/// The place of a mistake of the form is the first wrong place, as [`cdi_form::wrong`] gives it. A number is found exactly if the
/// numbers don't fit. The name that is found is the first that is none.
pub fn law_mistakes()
    ensures form { (d : Data) (part : AnyPart)
        → option_map (λ m. m.path) (form_mistake d part) ≡ wrong d part }
    ensures number { (d : Data) → is_none (number_mistake d) ≡ numbers_fit d }
    ensures name { (d : Data) (part : AnyPart)
        → option_map (λ m. m.mistake) (name_mistake d part)
        ≡ option_map NoName (first_bad_name d part) }
{}

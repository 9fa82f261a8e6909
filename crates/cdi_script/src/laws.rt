//! Laws of the definitions that the contracts cite.
ghost use Rattle.std.specs.Prelude.{◌≡◌};
ghost use Rattle.cdi_script.specs.declared.part.Parts.{Parts as AnyParts};
ghost use Rattle.cdi_script.specs.declared.step.StepKind.{StepKind as AnyKind};
ghost use Rattle.cdi_script.specs.Part.{SameAtAll};
ghost use Rattle.cdi_script.specs.Step.{row_of, action_of};

/// The action of a step rests on the parts of its row alone: where two lists of parts are the same at these, so are the
/// actions.
pub fn law_action()
    ensures { (kind : AnyKind) (a b : AnyParts) → SameAtAll (row_of kind).parts a b
        → action_of kind a ≡ action_of kind b }
{}

//! Laws of resolution, over the definitions alone.
ghost use Rattle.std.specs.Prelude.{◌≡◌, ℕ, List};
ghost use Rattle.cdi_beans.specs.declared.bean.Bean.{Bean};
ghost use Rattle.cdi_quals.specs.declared.qualifier.Qualifier.{Qualifier};
ghost use Rattle.cdi_resolve.specs.Resolution.{resolution, IsEligible};
ghost use Rattle.cdi_resolve.specs.declared.resolution.Resolution.TheVariants.{One};

/// What a type and qualifiers resolve to is one of the enabled beans, and has the type and each required qualifier.
pub fn law_one_is_eligible()
    ensures { (type : ℕ) (qualifiers : List Qualifier) (beans : List (ℕ × Bean)) (b : ℕ)
        → resolution type qualifiers beans ≡ One b → IsEligible type qualifiers beans b }
{}

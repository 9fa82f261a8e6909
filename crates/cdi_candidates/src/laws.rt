//! Laws of candidates, over the definitions alone.
ghost use Rattle.std.specs.Prelude.{◌≡◌, ℕ, List};
ghost use Rattle.cdi_beans.specs.declared.bean.Bean.{Bean};
ghost use Rattle.cdi_quals.specs.declared.qualifier.Qualifier.{Qualifier};
ghost use Rattle.cdi_candidates.specs.Candidates.{left};
ghost use Rattle.cdi_resolve.specs.Resolution.{resolution, sole};

/// A type and qualifiers resolve to the sole bean that is left for them; to nothing if none is left, and to many if several are.
pub fn law_left()
    ensures { (type : ℕ) (qualifiers : List Qualifier) (beans : List (ℕ × Bean))
        → resolution type qualifiers beans ≡ sole (left type qualifiers beans) }
{}

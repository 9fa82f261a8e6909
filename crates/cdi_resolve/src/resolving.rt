//! What answers questions of resolution.
use crate::resolution::Resolution;
use crate::resolver::Resolver;
use cdi_base::Name;
use cdi_quals::QualSet;

/// What tells what a type and qualifiers resolve to among the enabled beans of a list.
pub trait Resolving {
    ghost use Rattle.std.specs.Prelude.{◌≡◌, ℕ, List};
    ghost use Rattle.cdi_beans.specs.declared.bean.Bean.{Bean};
    ghost use Rattle.cdi_resolve.specs.Resolution.{resolution};

    /// The enabled beans, each with its index in the list.
    ghost enabled: { Self → List (ℕ × Bean) };

    /// What a type and qualifiers resolve to (Jakarta CDI 4.0, *Typesafe resolution*, *Unsatisfied and ambiguous dependencies*). No
    /// qualifiers stand for `Default`.
    fn ask(&mut self, ty: Name, qualifiers: &QualSet) -> Resolution
        ensures told { result ≡ resolution ty qualifiers.now (enabled self.old) }
        ensures kept { enabled self.new ≡ enabled self.old };
}

impl Resolving for Resolver {
    ghost use Rattle.cdi_resolve.specs.Filters.{enabled_of};

    ghost enabled = { enabled_of };

    fn ask(&mut self, ty: Name, qualifiers: &QualSet) -> Resolution {
        self.resolve(ty, qualifiers)
    }
}

impl Resolving for &Resolver {
    ghost use Rattle.cdi_resolve.specs.Filters.{enabled_of};

    ghost enabled = { λ r. enabled_of r.now };

    fn ask(&mut self, ty: Name, qualifiers: &QualSet) -> Resolution {
        (**self).resolve(ty, qualifiers)
    }
}

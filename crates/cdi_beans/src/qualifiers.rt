//! The qualifiers of a bean.
ghost use Rattle.std.specs.Prelude.{◌≡◌, ◌++◌};
ghost use Rattle.std.specs.List.{list_any};
ghost use Rattle.cdi_quals.specs.Qualifiers as spec;
ghost use Rattle.cdi_beans.specs.ManagedQualifiers.{qualifiers_in};

use cdi_base::Seq;
use cdi_quals::{QualSet, Qualifier};
use std::alloc::Global;
use std::marker::Model;
use std::rc::Rc;

/// The qualifiers of a bean, also those that it needn't declare (Jakarta CDI 4.0, *Qualifiers*). A bean that specializes others has
/// theirs too (*Specialization*), and holds these in common with them. Contracts see the list: its own, and then those of each bean
/// that it specializes.
#[derive(Debug, Drop)]
pub struct BeanQualifiers {
    own: Seq<Qualifier>,
    specialized: Seq<Rc<Seq<Qualifier>>>,
}

impl Model for BeanQualifiers {
    ghost use Rattle.std.specs.Prelude.{List, ◌++◌};
    ghost use Rattle.cdi_quals.specs.declared.qualifier.Qualifier.{Qualifier};
    ghost use Rattle.cdi_beans.specs.ManagedQualifiers.{qualifiers_in};

    ghost Value = { List Qualifier };

    ghost view = { λ q. q.own ++ qualifiers_in q.specialized };
}

/// The qualifiers of a bean in the parts that hold them.
#[derive(Clone, Copy)]
pub struct QualifierParts<'a> {
    pub own: &'a [Qualifier],
    /// Those of each bean that it specializes.
    pub specialized: &'a [Rc<Seq<Qualifier>>],
}

/// Whether one of some qualifiers is what is required.
fn has(qualifiers: &[Qualifier], required: &Qualifier) -> bool
    ensures { result ≡ spec.has qualifiers.now required.now }
{
    qualifiers.iter().any(|own| required.same_binding(own))
}

/// Whether one of the qualifiers in some parts is what is required.
fn has_in(parts: &[Rc<Seq<Qualifier>>], required: &Qualifier) -> bool
    ensures { result ≡ list_any (λ part. spec.has part.value required.now) parts.now }
{
    parts.iter().any(|part| has(part.as_slice(), required))
}

impl BeanQualifiers {
    /// The qualifiers of a bean that specializes none.
    pub fn new(alloc: Global, own: Seq<Qualifier>) -> BeanQualifiers
        ensures { result ≡ own }
    {
        BeanQualifiers {
            own,
            specialized: Seq::empty(alloc),
        }
    }

    /// The qualifiers of a bean: its own, and those of each bean that it specializes.
    pub(crate) fn with(own: Seq<Qualifier>, specialized: Seq<Rc<Seq<Qualifier>>>) -> BeanQualifiers
        ensures { result ≡ own ++ qualifiers_in specialized }
    {
        BeanQualifiers { own, specialized }
    }

    /// The qualifiers in their parts.
    pub fn parts(&self) -> QualifierParts<'_>
        ensures { result.own.now ++ qualifiers_in result.specialized.now ≡ self.now }
    {
        QualifierParts {
            own: self.own.as_slice(),
            specialized: self.specialized.as_slice(),
        }
    }

    /// Whether the bean has a required qualifier: one of the same type with equal values of all members that aren't nonbinding
    /// (Jakarta CDI 4.0, *Typesafe resolution*).
    #[tactic(auto, using(crate::proofs::InParts::any_of))]
    pub fn has(&self, required: &Qualifier) -> bool
        ensures { result ≡ spec.has self.now required.now }
    {
        has(self.own.as_slice(), required) || has_in(self.specialized.as_slice(), required)
    }

    /// Whether the bean has each qualifier of a set.
    pub fn has_all(&self, required: &QualSet) -> bool
        ensures { result ≡ spec.has_all self.now required.now }
    {
        required
            .as_slice()
            .iter()
            .all(|qualifier| self.has(qualifier))
    }
}

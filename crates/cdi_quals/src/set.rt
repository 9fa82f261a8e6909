//! A set of qualifiers.
ghost use Rattle.std.specs.Prelude.{◌≡◌, IfOk, OnOk, map};
ghost use Rattle.cdi_quals.specs.Qualifiers as spec;
ghost use Rattle.cdi_quals.specs.Order.{compare_qualifiers as order_of};
ghost use Rattle.cdi_quals.specs.OrderedSet.{IsOrderedSet};

use crate::order::compare_qualifiers;
use crate::qualifier::Qualifier;
use crate::types::QualifierTypes;
use cdi_base::{Names, Seq, Use};
use std::alloc::{AllocError, Global};
use std::marker::Model;

/// A set of qualifiers, or of interceptor bindings: full uses in the order of their names' texts and then of their values, each
/// once. Contracts see the list.
#[derive(Debug, Drop)]
pub struct QualSet {
    qualifiers: Seq<Qualifier>,
}

impl Model for QualSet {
    ghost use Rattle.std.specs.Prelude.{List};
    ghost use Rattle.cdi_quals.specs.declared.qualifier.Qualifier.{Qualifier};

    ghost Value = { List Qualifier };

    ghost view = { λ s. s.qualifiers };
}

/// The uses with all their members.
fn full_uses(
    alloc: Global,
    types: &QualifierTypes,
    uses: &[Use],
) -> Result<Vec<Qualifier>, AllocError>
    ensures { IfOk result (λ full. full.items ≡ map (spec.full_use types.now) uses.now) }
{
    let mut full = Vec::new(alloc);
    for written in uses {
        full.push(Qualifier::new(alloc, types, written)?)?;
    }
    Ok(full)
}

/// Puts qualifiers in order, and drops repeats.
fn put_in_order(names: &Names, qualifiers: &mut Vec<Qualifier>) -> Result<(), AllocError>
    ensures { OnOk result
        (IsOrderedSet (order_of names.now) qualifiers.old.items qualifiers.new.items) }
{
    qualifiers.sort_by(|a, b| compare_qualifiers(names, a, b))?;
    qualifiers.dedup_by(|a, b| compare_qualifiers(names, a, b).is_eq());
    Ok(())
}

impl QualSet {
    /// The set of these uses. Each has all members of its type: those that it doesn't give are null.
    pub fn new(
        alloc: Global,
        names: &Names,
        types: &QualifierTypes,
        uses: &[Use],
    ) -> Result<QualSet, AllocError>
        ensures { IfOk result
            (λ set.
            IsOrderedSet (order_of names.now) (map (spec.full_use types.now) uses.now) set) }
    {
        let mut qualifiers = full_uses(alloc, types, uses)?;
        put_in_order(names, &mut qualifiers)?;
        Ok(QualSet {
            qualifiers: Seq::new(qualifiers),
        })
    }

    /// The qualifiers in their order.
    pub fn as_slice(&self) -> &[Qualifier]
        ensures { result.now ≡ self.now }
    {
        self.qualifiers.as_slice()
    }

    /// Whether the set has a required qualifier: one of the same type with equal values of all members that aren't nonbinding
    /// (Jakarta CDI 4.0, *Typesafe resolution*).
    pub fn has(&self, required: &Qualifier) -> bool
        ensures { result ≡ spec.has self.now required.now }
    {
        self.qualifiers
            .as_slice()
            .iter()
            .any(|own| required.same_binding(own))
    }

    /// Whether the set has each qualifier of a set.
    pub fn has_all(&self, required: &QualSet) -> bool
        ensures { result ≡ spec.has_all self.now required.now }
    {
        required
            .qualifiers
            .as_slice()
            .iter()
            .all(|qualifier| self.has(qualifier))
    }

    /// Whether another set has each qualifier of this one, as the qualifiers of an observer have to be among those of an event
    /// (Jakarta CDI 4.0, *Observer resolution*).
    pub fn subset(&self, of: &QualSet) -> bool
        ensures { result ≡ spec.has_all of.now self.now }
    {
        of.has_all(self)
    }
}

impl Clone for QualSet {
    ghost is_clone = { λ s copy. copy ≡ s };

    #[tactic(auto, using(cdi_base::proofs::Clones::same_items))]
    fn clone(&self) -> Result<QualSet, AllocError> {
        Ok(QualSet {
            qualifiers: self.qualifiers.clone()?,
        })
    }
}

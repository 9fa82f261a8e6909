//! Disposers, and the producers that they serve.
ghost use Rattle.std.specs.Prelude.{◌≡◌, ◌↔◌, IsTrue};
ghost use Rattle.cdi_bean_rules.specs.Disposers as spec;

use crate::required::has_required;
use cdi_base::{Name, Seq, Use};
use cdi_bean_check::bean_names::is_bean;
use cdi_bean_check::bean_types::is_bean_type;
use cdi_deployment::{Class, Disposer, Member};
use cdi_problems::{Element, Rule};
use cdi_quals::QualifierTypes;
use cdi_types::TypeTable;

/// A bean's disposer serves no producer (Jakarta CDI 4.0, *Disposer methods*).
#[derive(Clone, Copy)]
pub struct UnmatchedDisposer<'a> {
    /// The types of the deployment.
    pub types: &'a TypeTable,
    /// The qualifier types of the deployment.
    pub qualifiers: &'a QualifierTypes,
}

/// Two disposers of a bean serve one producer (Jakarta CDI 4.0, *Disposer methods*).
#[derive(Clone, Copy)]
pub struct TwoDisposers<'a> {
    /// The types of the deployment.
    pub types: &'a TypeTable,
    /// The qualifier types of the deployment.
    pub qualifiers: &'a QualifierTypes,
}

/// Whether a product has the type and the qualifiers of a disposed parameter.
fn fits(
    types: &TypeTable,
    qualifiers: &QualifierTypes,
    disposer: &Disposer,
    of: Name,
    typed: &Option<Seq<Name>>,
    uses: &[Use],
) -> bool
    ensures { IsTrue result
        ↔ spec.Fits types.now qualifiers.now disposer.now of typed.now uses.now }
{
    is_bean_type(types, of, typed, disposer.ty)
        && has_required(qualifiers, uses, disposer.quals.as_slice())
}

/// Whether a disposer serves a member of its class: a producer of what has the type and the qualifiers of the disposed parameter
/// (Jakarta CDI 4.0, *Disposed parameter of a disposer method*).
pub fn serves(
    types: &TypeTable,
    qualifiers: &QualifierTypes,
    disposer: &Disposer,
    member: &Member,
) -> bool
    ensures { IsTrue result ↔ spec.Serves types.now qualifiers.now disposer.now member.now }
{
    match member {
        Member::Producer(producer) => {
            let uses = producer.quals.as_slice();
            fits(
                types,
                qualifiers,
                disposer,
                producer.ty,
                &producer.typed,
                uses,
            )
        }
        Member::ProducerField(producer) => {
            let uses = producer.quals.as_slice();
            fits(
                types,
                qualifiers,
                disposer,
                producer.ty,
                &producer.typed,
                uses,
            )
        }
        _ => false,
    }
}

/// Whether a disposer of a class serves none of its members.
fn serves_none(
    types: &TypeTable,
    qualifiers: &QualifierTypes,
    members: &[Member],
    disposer: &Disposer,
) -> bool
    ensures { IsTrue result ↔ spec.ServesNone types.now qualifiers.now members.now disposer.now }
{
    for producer in members {
        if serves(types, qualifiers, disposer, producer) {
            return false;
        }
    }
    true
}

/// Whether a member is a disposer that serves another.
fn disposes(
    types: &TypeTable,
    qualifiers: &QualifierTypes,
    member: &Member,
    producer: &Member,
) -> bool
    ensures { IsTrue result ↔ spec.Disposes types.now qualifiers.now member.now producer.now }
{
    match member {
        Member::Disposer(disposer) => serves(types, qualifiers, disposer, producer),
        _ => false,
    }
}

/// Whether two of some members are disposers that serve another.
fn has_two(
    types: &TypeTable,
    qualifiers: &QualifierTypes,
    members: &[Member],
    producer: &Member,
) -> bool
    ensures { IsTrue result ↔ spec.HasTwo types.now qualifiers.now members.now producer.now }
{
    let mut has_one = false;
    for member in members {
        if disposes(types, qualifiers, member, producer) {
            if has_one {
                return true;
            }
            has_one = true;
        }
    }
    false
}

/// Whether a member is a disposer of a bean that serves nothing.
fn is_unmatched(
    types: &TypeTable,
    qualifiers: &QualifierTypes,
    class: &Class,
    member: &Member,
) -> bool
    ensures { IsTrue result ↔ spec.IsUnmatched types.now qualifiers.now class.now member.now }
{
    match member {
        Member::Disposer(disposer) => {
            is_bean(class) && serves_none(types, qualifiers, class.members.as_slice(), disposer)
        }
        _ => false,
    }
}

/// Whether a member of a bean is served twice.
fn is_served_twice(
    types: &TypeTable,
    qualifiers: &QualifierTypes,
    class: &Class,
    member: &Member,
) -> bool
    ensures { IsTrue result ↔ spec.IsServedTwice types.now qualifiers.now class.now member.now }
{
    is_bean(class) && has_two(types, qualifiers, class.members.as_slice(), member)
}

impl Rule for UnmatchedDisposer<'_> {
    ghost use Rattle.cdi_bean_rules.specs.Disposers.{IsUnmatchedDisposer};

    ghost holds_at = { λ rule e. IsUnmatchedDisposer rule.types.now rule.qualifiers.now e };

    fn holds(&self, element: &Element<'_>) -> bool {
        match element {
            Element::Member { class, member, .. } => {
                is_unmatched(self.types, self.qualifiers, class, member)
            }
            _ => false,
        }
    }
}

impl Rule for TwoDisposers<'_> {
    ghost use Rattle.cdi_bean_rules.specs.Disposers.{HasTwoDisposers};

    ghost holds_at = { λ rule e. HasTwoDisposers rule.types.now rule.qualifiers.now e };

    fn holds(&self, element: &Element<'_>) -> bool {
        match element {
            Element::Member { class, member, .. } => {
                is_served_twice(self.types, self.qualifiers, class, member)
            }
            _ => false,
        }
    }
}

//! Restricted bean types.
ghost use Rattle.std.specs.Prelude.{◌≡◌, MatchBool};
ghost use Rattle.cdi_bean_check.specs.BeanTypes as spec;

use cdi_base::{Name, Seq};
use cdi_deployment::{Class, Member};
use cdi_problems::{Element, Rule};
use cdi_types::TypeTable;

/// The types of a bean, or of a product of a bean, are restricted to one that isn't among its unrestricted types (Jakarta CDI 4.0,
/// *Restricting the bean types of a bean*).
#[derive(Clone, Copy)]
pub struct TypedNotAType<'a> {
    /// The types of the deployment.
    pub types: &'a TypeTable,
}

/// Whether a restriction lists a type that what has this type wouldn't have anyway.
fn lists_other(types: &TypeTable, of: Name, typed: &[Name]) -> bool
    ensures { MatchBool result
        (spec.ListsOther types.now of typed.now) (¬ spec.ListsOther types.now of typed.now) }
{
    for name in typed {
        if !types.is_subtype(of, *name) {
            return true;
        }
    }
    false
}

fn is_restricted_wrongly(types: &TypeTable, of: Name, typed: &Option<Seq<Name>>) -> bool
    ensures { MatchBool result
        (spec.RestrictedWrongly types.now of typed.now)
        (¬ spec.RestrictedWrongly types.now of typed.now) }
{
    match typed {
        Some(typed) => lists_other(types, of, typed.as_slice()),
        None => false,
    }
}

fn is_class_wrong(types: &TypeTable, class: &Class) -> bool
    ensures { MatchBool result
        (spec.RestrictedWrongly types.now class.now.name (spec.restriction class.now.bean))
        (¬ spec.RestrictedWrongly types.now class.now.name (spec.restriction class.now.bean)) }
{
    match &class.bean {
        Some(bean) => is_restricted_wrongly(types, class.name, &bean.typed),
        None => false,
    }
}

/// Whether a member is a producer that is restricted wrongly.
fn is_product_wrong(types: &TypeTable, member: &Member) -> bool
    ensures { MatchBool result
        (spec.IsProductWrong types.now member.now) (¬ spec.IsProductWrong types.now member.now) }
{
    match member {
        Member::Producer(producer) => is_restricted_wrongly(types, producer.ty, &producer.typed),
        Member::ProducerField(producer) => {
            is_restricted_wrongly(types, producer.ty, &producer.typed)
        }
        _ => false,
    }
}

/// Whether a member is a producer of a bean that is restricted wrongly.
fn is_member_wrong(types: &TypeTable, class: &Class, member: &Member) -> bool
    ensures { MatchBool result
        (spec.IsMemberWrong types.now class.now member.now)
        (¬ spec.IsMemberWrong types.now class.now member.now) }
{
    if class.bean.is_none() {
        return false;
    }
    is_product_wrong(types, member)
}

impl Rule for TypedNotAType<'_> {
    ghost use Rattle.cdi_bean_check.specs.BeanTypes.{HasTypedNotAType};

    ghost holds_at = { λ rule e. HasTypedNotAType rule.types.now e };

    fn holds(&self, element: &Element<'_>) -> bool {
        match element {
            Element::Class { class, .. } => is_class_wrong(self.types, class),
            Element::Member { class, member, .. } => is_member_wrong(self.types, class, member),
            _ => false,
        }
    }
}

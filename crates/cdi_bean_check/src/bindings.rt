//! Lists of interceptor bindings.
ghost use Rattle.std.specs.Prelude.{◌≡◌, ◌==◌};
ghost use Rattle.std.specs.List.{list_any};
ghost use Rattle.cdi_bean_check.specs.BindingLists as spec;
ghost use Rattle.cdi_problems.specs.Elements.{element_of};

use cdi_base::{Name, Use};
use cdi_deployment::Member;
use cdi_problems::{Element, Rule};

/// A list of bindings of a class, a member or an interceptor names one type twice (Jakarta Interceptors 2.1, *Interceptor Bindings*).
#[derive(Clone, Copy, Debug)]
pub struct TwoBindingsOfOneType;

fn names_type(uses: &[Use], name: Name) -> bool
    ensures { result ≡ list_any (λ other. other.name == name) uses.now }
{
    uses.iter().any(|other| other.name == name)
}

/// Whether two uses are of one type.
fn names_type_twice(uses: &[Use]) -> bool
    ensures { result ≡ spec.names_type_twice uses.now }
{
    for i in 0..uses.len() {
        if names_type(&uses[i + 1..], uses[i].name) {
            return true;
        }
    }
    false
}

fn bindings_of_member(member: &Member) -> &[Use]
    ensures { result.now ≡ spec.bindings_of_member member.now }
{
    match member {
        Member::Method(method) => method.bindings.as_slice(),
        Member::Producer(producer) => producer.bindings.as_slice(),
        Member::Disposer(disposer) => disposer.bindings.as_slice(),
        Member::Observer(observer) => observer.bindings.as_slice(),
        _ => &[],
    }
}

impl Rule for TwoBindingsOfOneType {
    ghost use Rattle.cdi_bean_check.specs.BindingLists.{HasTwoBindingsOfOneType};

    ghost holds_at = { λ rule e. HasTwoBindingsOfOneType e };

    fn holds(&self, element: &Element<'_>) -> bool {
        match element {
            Element::Class { class, .. } => names_type_twice(class.bindings.as_slice()),
            Element::Member { member, .. } => names_type_twice(bindings_of_member(member)),
            Element::Interceptor { interceptor, .. } => {
                names_type_twice(interceptor.bindings.as_slice())
            }
            _ => false,
        }
    }
}

//! What elements of a deployment claim for themselves alone.
ghost use Rattle.std.specs.Prelude.{◌≡◌, ◌∷◌, ◌++◌, option_to_list};
ghost use Rattle.cdi_name_check.specs.DuplicateName as spec;
ghost use Rattle.cdi_problems.specs.Elements.{element_of};

use cdi_base::Name;
use cdi_deployment::Member;
use cdi_problems::Element;

/// What only one element may have: a name within its group, or the place of a callback in a class. Classes and interceptors come
/// with their indices, since two of one name are two owners.
#[derive(Clone, Copy, Debug, PartialEq, Eq, Hash)]
pub enum Claim {
    /// The name of an interface, a class or an interceptor.
    Type(Name),
    Qualifier(Name),
    Binding(Name),
    Exception(Name),
    Script(Name),
    SelectedName(Name),
    OrderedName(Name),
    /// The name of a field, an injected field or a member of a class.
    ClassPart { class: usize, name: Name },
    /// The name of a field or an injected field of an interceptor.
    InterceptorPart { interceptor: usize, name: Name },
    /// The post-construct callback of a class.
    PostConstruct(usize),
    /// The pre-destroy callback of a class.
    PreDestroy(usize),
}

/// What the member of a class claims: its name, and the place of a callback if it is one.
fn member_claims(class: usize, member: &Member) -> (Claim, Option<Claim>)
    ensures { result.0 ∷ option_to_list result.1 ≡ spec.member_claims class member.now }
{
    let name = Claim::ClassPart {
        class,
        name: member.name(),
    };
    match member {
        Member::PostConstruct(_) => (name, Some(Claim::PostConstruct(class))),
        Member::PreDestroy(_) => (name, Some(Claim::PreDestroy(class))),
        _ => (name, None),
    }
}

/// What an element claims for itself alone: nothing, its name, or its name and the place of a callback.
pub(crate) fn claims_of(element: &Element<'_>) -> (Option<Claim>, Option<Claim>)
    ensures { option_to_list result.0 ++ option_to_list result.1
        ≡ spec.claims_of (element_of element.now) }
{
    let name = match element {
        Element::Interface(interface) => Claim::Type(interface.name),
        Element::Qualifier(qualifier) => Claim::Qualifier(qualifier.name),
        Element::Binding(binding) => Claim::Binding(binding.name),
        Element::Exception(exception) => Claim::Exception(exception.name),
        Element::Class { class, .. } => Claim::Type(class.name),
        Element::Field { index, field, .. } => Claim::ClassPart {
            class: *index,
            name: field.name,
        },
        Element::InjectedField { index, field, .. } => Claim::ClassPart {
            class: *index,
            name: field.name,
        },
        Element::Constructor { .. } => return (None, None),
        Element::Member { index, member, .. } => {
            let (name, callback) = member_claims(*index, member);
            return (Some(name), callback);
        }
        Element::Interceptor { interceptor, .. } => Claim::Type(interceptor.name),
        Element::InterceptorField { index, field, .. } => Claim::InterceptorPart {
            interceptor: *index,
            name: field.name,
        },
        Element::InterceptorInjectedField { index, field, .. } => Claim::InterceptorPart {
            interceptor: *index,
            name: field.name,
        },
        Element::SelectedName(name) => Claim::SelectedName(**name),
        Element::OrderedName(name) => Claim::OrderedName(**name),
        Element::Script(script) => Claim::Script(script.name),
    };
    (Some(name), None)
}

//! The observers that classes declare.
ghost use Rattle.std.specs.Prelude.{◌≡◌};
ghost use Rattle.std.specs.Option.{option_copied};
ghost use Rattle.cdi_planner.specs.Observers as spec;

use cdi_base::Name;
use cdi_deployment::{Class, Member, Observer};
use cdi_types::ClassPart;

/// A member, if it is an observer.
fn as_observer(member: &Member) -> Option<&Observer>
    ensures { option_copied result ≡ spec.as_observer member.now }
{
    match member {
        Member::Observer(observer) => Some(observer),
        _ => None,
    }
}

/// The observer of a name among some members.
fn observer_named(members: &[Member], name: Name) -> Option<&Observer>
    ensures { option_copied result ≡ spec.observer_named name members.now }
{
    for member in members {
        if let Some(observer) = as_observer(member)
            && observer.name == name
        {
            return Some(observer);
        }
    }
    None
}

/// The observer of a name that a class declares.
pub(crate) fn observer_in<'a>(class: &'a Class, name: Name) -> Option<ClassPart<'a, Observer>>
    ensures { result ≡ spec.observer_in name class.now }
{
    match observer_named(class.members.as_slice(), name) {
        Some(part) => Some(ClassPart { class, part }),
        None => None,
    }
}

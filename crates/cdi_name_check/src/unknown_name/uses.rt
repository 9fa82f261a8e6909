//! Uses of qualifiers and bindings.
ghost use Rattle.std.specs.Prelude.{◌≡◌};
ghost use Rattle.std.specs.List.{list_all};
ghost use Rattle.cdi_name_check.specs.UnknownName as spec;

use crate::unknown_name::declared::{DeclaredNames, is_built_in};
use cdi_base::{BuiltIn, Name, Use};

fn is_plain_qualifier(name: Name) -> bool
    ensures { result ≡ spec.is_plain_qualifier name }
{
    is_built_in(BuiltIn::Any, name) || is_built_in(BuiltIn::Default, name)
}

/// Whether a name is that of a built-in qualifier with the one member `value`.
fn is_valued_qualifier(name: Name) -> bool
    ensures { result ≡ spec.is_valued_qualifier name }
{
    is_built_in(BuiltIn::Named, name)
        || is_built_in(BuiltIn::Initialized, name)
        || is_built_in(BuiltIn::BeforeDestroyed, name)
        || is_built_in(BuiltIn::Destroyed, name)
}

fn is_qualifier_member(known: &DeclaredNames<'_>, name: Name, member: Name) -> bool
    ensures { result ≡ spec.is_qualifier_member known.now name member }
{
    known.has_declared_member(name, member)
        || (is_valued_qualifier(name) && is_built_in(BuiltIn::Value, member))
}

fn is_qualifier(known: &DeclaredNames<'_>, name: Name) -> bool
    ensures { result ≡ spec.is_qualifier known.now name }
{
    is_plain_qualifier(name) || is_valued_qualifier(name) || known.is_declared_qualifier(name)
}

fn has_qualifier_members(known: &DeclaredNames<'_>, written: &Use) -> bool
    ensures { result ≡ list_all
        (λ m. spec.is_qualifier_member known.now written.now.name m.name) written.now.members }
{
    written.members.as_slice().iter().all(|member| is_qualifier_member(
        known,
        written.name,
        member.name,
    ))
}

fn is_qualifier_use(known: &DeclaredNames<'_>, written: &Use) -> bool
    ensures { result ≡ spec.is_qualifier_use known.now written.now }
{
    is_qualifier(known, written.name) && has_qualifier_members(known, written)
}

fn has_binding_members(known: &DeclaredNames<'_>, written: &Use) -> bool
    ensures { result ≡ list_all
        (λ m. spec.has_member known.now.bindings written.now.name m.name) written.now.members }
{
    written.members.as_slice().iter().all(|member| known.has_binding_member(
        written.name,
        member.name,
    ))
}

fn is_binding_use(known: &DeclaredNames<'_>, written: &Use) -> bool
    ensures { result ≡ spec.is_binding_use known.now written.now }
{
    known.is_binding(written.name) && has_binding_members(known, written)
}

fn is_event_qualifier_use(known: &DeclaredNames<'_>, written: &Use) -> bool
    ensures { result ≡ spec.is_event_qualifier_use known.now written.now }
{
    !is_built_in(BuiltIn::Default, written.name) && is_qualifier_use(known, written)
}

/// Whether each of some uses is of a known qualifier, and each member that it gives is one of the qualifier's.
pub fn are_qualifiers(known: &DeclaredNames<'_>, uses: &[Use]) -> bool
    ensures { result ≡ spec.are_qualifiers known.now uses.now }
{
    uses.iter().all(|written| is_qualifier_use(known, written))
}

/// The same of the qualifiers of an event (Jakarta CDI 4.0, *Event types and qualifier types*), none of which is `Default`.
pub fn are_event_qualifiers(known: &DeclaredNames<'_>, uses: &[Use]) -> bool
    ensures { result ≡ list_all (spec.is_event_qualifier_use known.now) uses.now }
{
    uses.iter()
        .all(|written| is_event_qualifier_use(known, written))
}

pub(super) fn are_bindings(known: &DeclaredNames<'_>, uses: &[Use]) -> bool
    ensures { result ≡ spec.are_bindings known.now uses.now }
{
    uses.iter().all(|written| is_binding_use(known, written))
}

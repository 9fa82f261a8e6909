//! Names that aren't declared, or are of the wrong kind.
ghost use Rattle.std.specs.Prelude.{◌≡◌};
ghost use Rattle.std.specs.List.{list_all};
ghost use Rattle.cdi_deployment.specs.Lists as lists;
ghost use Rattle.cdi_name_check.specs.UnknownName as spec;
ghost use Rattle.cdi_problems.specs.Elements.{element_of};

pub mod declared;
pub mod name_sets;
mod uses;

use crate::unknown_name::declared::DeclaredNames;
use cdi_base::{Name, Seq};
use cdi_deployment::{AnnotationType, Bean, Class, Field, Member, Point};
use cdi_problems::{Element, Rule};
pub use uses::{are_event_qualifiers, are_qualifiers};

/// A name that an element has isn't declared, or is of the wrong kind: of `extends`, `implements`, `typed`, a type, a use of a
/// qualifier or binding or a member in it, a nonbinding member, the field of a producer field, a selected alternative, or an enabled
/// interceptor. `Default` isn't a qualifier of an event.
#[derive(Clone, Copy)]
pub struct UnknownName<'a> {
    /// The names of the deployment.
    pub names: &'a DeclaredNames<'a>,
}

fn are_interfaces(known: &DeclaredNames<'_>, names: &[Name]) -> bool
    ensures { result ≡ list_all (spec.is_interface known.now) names.now }
{
    names.iter().all(|name| known.is_interface(*name))
}

fn are_types(known: &DeclaredNames<'_>, names: &[Name]) -> bool
    ensures { result ≡ list_all (spec.is_type known.now) names.now }
{
    names.iter().all(|name| known.is_type(*name))
}

fn stands_in(names: &[Name], name: Name) -> bool
    ensures { result ≡ lists.stands_in names.now name }
{
    names.iter().any(|other| *other == name)
}

fn are_members(declared: &AnnotationType) -> bool
    ensures { result ≡ list_all (lists.stands_in declared.now.members) declared.now.nonbinding }
{
    declared
        .nonbinding
        .as_slice()
        .iter()
        .all(|name| stands_in(declared.members.as_slice(), *name))
}

fn knows_point(known: &DeclaredNames<'_>, point: &Point) -> bool
    ensures { result ≡ spec.knows_point known.now point.now }
{
    known.is_type(point.ty) && uses::are_qualifiers(known, point.quals.as_slice())
}

fn know_points(known: &DeclaredNames<'_>, points: &[Point]) -> bool
    ensures { result ≡ spec.know_points known.now points.now }
{
    points.iter().all(|point| knows_point(known, point))
}

fn knows_typed(known: &DeclaredNames<'_>, typed: &Option<Seq<Name>>) -> bool
    ensures { result ≡ spec.knows_typed known.now typed.now }
{
    match typed {
        Some(typed) => are_types(known, typed.as_slice()),
        None => true,
    }
}

fn knows_bean(known: &DeclaredNames<'_>, bean: &Option<Bean>) -> bool
    ensures { result ≡ spec.knows_bean known.now bean.now }
{
    match bean {
        Some(bean) => {
            uses::are_qualifiers(known, bean.quals.as_slice()) && knows_typed(known, &bean.typed)
        }
        None => true,
    }
}

fn knows_superclass(known: &DeclaredNames<'_>, extends: Option<Name>) -> bool
    ensures { result ≡ spec.knows_superclass known.now extends }
{
    match extends {
        Some(name) => known.is_extensible(name),
        None => true,
    }
}

fn knows_class(known: &DeclaredNames<'_>, class: &Class) -> bool
    ensures { result ≡ spec.knows_class known.now class.now }
{
    knows_superclass(known, class.extends)
        && are_interfaces(known, class.implements.as_slice())
        && uses::are_bindings(known, class.bindings.as_slice())
        && knows_bean(known, &class.bean)
}

fn has_field(fields: &[Field], name: Name) -> bool
    ensures { result ≡ spec.has_field fields.now name }
{
    fields.iter().any(|field| field.name == name)
}

fn knows_member(known: &DeclaredNames<'_>, class: &Class, member: &Member) -> bool
    ensures { result ≡ spec.knows_member known.now class.now member.now }
{
    match member {
        Member::Method(method) => uses::are_bindings(known, method.bindings.as_slice()),
        Member::Initializer(initializer) => { know_points(known, initializer.params.as_slice()) }
        Member::PostConstruct(_) => true,
        Member::PreDestroy(_) => true,
        Member::Producer(producer) => {
            known.is_type(producer.ty)
                && uses::are_qualifiers(known, producer.quals.as_slice())
                && knows_typed(known, &producer.typed)
                && know_points(known, producer.params.as_slice())
                && uses::are_bindings(known, producer.bindings.as_slice())
        }
        Member::ProducerField(producer) => {
            has_field(class.fields.as_slice(), producer.field)
                && known.is_type(producer.ty)
                && uses::are_qualifiers(known, producer.quals.as_slice())
                && knows_typed(known, &producer.typed)
        }
        Member::Disposer(disposer) => {
            known.is_type(disposer.ty)
                && uses::are_qualifiers(known, disposer.quals.as_slice())
                && know_points(known, disposer.params.as_slice())
                && uses::are_bindings(known, disposer.bindings.as_slice())
        }
        Member::Observer(observer) => {
            known.is_type(observer.ty)
                && uses::are_event_qualifiers(known, observer.quals.as_slice())
                && know_points(known, observer.params.as_slice())
                && uses::are_bindings(known, observer.bindings.as_slice())
        }
    }
}

/// Whether each name that an element has is declared, and of the right kind.
fn knows_names(known: &DeclaredNames<'_>, element: &Element<'_>) -> bool
    ensures { result ≡ spec.knows_names known.now (element_of element.now) }
{
    match element {
        Element::Interface(interface) => are_interfaces(known, interface.extends.as_slice()),
        Element::Qualifier(qualifier) => are_members(qualifier),
        Element::Binding(binding) => are_members(binding),
        Element::Class { class, .. } => knows_class(known, class),
        Element::InjectedField { field, .. } => {
            known.is_type(field.ty) && uses::are_qualifiers(known, field.quals.as_slice())
        }
        Element::Constructor { constructor, .. } => {
            know_points(known, constructor.params.as_slice())
        }
        Element::Member { class, member, .. } => knows_member(known, class, member),
        Element::Interceptor { interceptor, .. } => {
            uses::are_bindings(known, interceptor.bindings.as_slice())
        }
        Element::InterceptorInjectedField { field, .. } => {
            known.is_type(field.ty) && uses::are_qualifiers(known, field.quals.as_slice())
        }
        Element::SelectedName(name) => known.is_bean_class(**name),
        Element::OrderedName(name) => known.is_interceptor(**name),
        _ => true,
    }
}

impl Rule for UnknownName<'_> {
    ghost use Rattle.cdi_name_check.specs.UnknownName.{HasUnknownName};

    ghost holds_at = { λ rule e. HasUnknownName rule.names.now e };

    fn holds(&self, element: &Element<'_>) -> bool {
        !knows_names(self.names, element)
    }
}

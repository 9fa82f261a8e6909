//! The names that an element of a deployment uses.
ghost use Rattle.std.specs.Prelude.{◌≡◌, ◌++◌, [], ◌∷◌, map, IfOk, OnOk};
ghost use Rattle.cdi_name_uses.specs.Uses as spec;
ghost use Rattle.cdi_problems.specs.Elements.{element_of};

use crate::group::{Annotation, Group};
use cdi_base::{MemberValue, Name, Seq, Use};
use cdi_deployment::{
    Bean, Class, Disposer, InjectedField, Member, Observer, Point, ProducerField, ProducerMethod,
};
use cdi_problems::Element;
use std::alloc::{AllocError, Global};

/// A name that an element of a deployment uses, and the group that it has to be of.
#[derive(Clone, Copy)]
pub struct NameUse {
    pub group: Group,
    pub name: Name,
}

/// Adds names that have to be of a group.
fn add_names(group: &Group, names: &[Name], uses: &mut Seq<NameUse>) -> Result<(), AllocError>
    ensures { OnOk result (uses.new ≡ uses.old ++ map (spec.of_group group.now) names.now) }
{
    for name in names {
        uses.push(NameUse {
            group: *group,
            name: *name,
        })?;
    }
    Ok(())
}

/// Adds the names of the members that are given a value.
fn add_members(
    group: &Group,
    members: &[MemberValue],
    uses: &mut Seq<NameUse>,
) -> Result<(), AllocError>
    ensures { OnOk result (uses.new ≡ uses.old ++ spec.member_uses group.now members.now) }
{
    for member in members {
        uses.push(NameUse {
            group: *group,
            name: member.name,
        })?;
    }
    Ok(())
}

fn add_annotation(
    annotation: Annotation,
    written: &Use,
    uses: &mut Seq<NameUse>,
) -> Result<(), AllocError>
    ensures { OnOk result (uses.new ≡ uses.old ++ spec.annotation_uses annotation written.now) }
{
    uses.push(NameUse {
        group: Group::Annotation(annotation),
        name: written.name,
    })?;
    add_members(
        &Group::MemberOf(annotation, written.name),
        written.members.as_slice(),
        uses,
    )
}

fn add_annotations(
    annotation: Annotation,
    written: &[Use],
    uses: &mut Seq<NameUse>,
) -> Result<(), AllocError>
    ensures { OnOk result (uses.new ≡ uses.old ++ spec.annotations_uses annotation written.now) }
{
    for one in written {
        add_annotation(annotation, one, uses)?;
    }
    Ok(())
}

/// Adds a type, and qualifiers.
fn add_typed(ty: Name, quals: &[Use], uses: &mut Seq<NameUse>) -> Result<(), AllocError>
    ensures { OnOk result (uses.new ≡ uses.old ++ spec.typed_uses ty quals.now) }
{
    uses.push(NameUse {
        group: Group::Type,
        name: ty,
    })?;
    add_annotations(Annotation::Qualifier, quals, uses)
}

fn add_points(points: &[Point], uses: &mut Seq<NameUse>) -> Result<(), AllocError>
    ensures { OnOk result (uses.new ≡ uses.old ++ spec.points_uses points.now) }
{
    for point in points {
        add_typed(point.ty, point.quals.as_slice(), uses)?;
    }
    Ok(())
}

/// Adds the types that a bean is restricted to.
fn add_restriction(typed: &Option<Seq<Name>>, uses: &mut Seq<NameUse>) -> Result<(), AllocError>
    ensures { OnOk result (uses.new ≡ uses.old ++ spec.restriction_uses typed.now) }
{
    match typed {
        Some(names) => add_names(&Group::Type, names.as_slice(), uses),
        None => Ok(()),
    }
}

fn add_bean(bean: &Option<Bean>, uses: &mut Seq<NameUse>) -> Result<(), AllocError>
    ensures { OnOk result (uses.new ≡ uses.old ++ spec.bean_uses bean.now) }
{
    match bean {
        Some(bean) => {
            add_annotations(Annotation::Qualifier, bean.quals.as_slice(), uses)?;
            add_restriction(&bean.typed, uses)
        }
        None => Ok(()),
    }
}

fn add_superclass(extends: Option<Name>, uses: &mut Seq<NameUse>) -> Result<(), AllocError>
    ensures { OnOk result (uses.new ≡ uses.old ++ spec.superclass_uses extends) }
{
    if let Some(name) = extends {
        uses.push(NameUse {
            group: Group::Superclass,
            name,
        })?;
    }
    Ok(())
}

fn add_class(class: &Class, uses: &mut Seq<NameUse>) -> Result<(), AllocError>
    ensures { OnOk result (uses.new ≡ uses.old ++ spec.class_uses class.now) }
{
    add_superclass(class.extends, uses)?;
    add_names(&Group::Interface, class.implements.as_slice(), uses)?;
    add_annotations(Annotation::Binding, class.bindings.as_slice(), uses)?;
    add_bean(&class.bean, uses)
}

fn add_producer(producer: &ProducerMethod, uses: &mut Seq<NameUse>) -> Result<(), AllocError>
    ensures { OnOk result (uses.new ≡ uses.old ++ spec.producer_uses producer.now) }
{
    add_typed(producer.ty, producer.quals.as_slice(), uses)?;
    add_restriction(&producer.typed, uses)?;
    add_points(producer.params.as_slice(), uses)?;
    add_annotations(Annotation::Binding, producer.bindings.as_slice(), uses)
}

fn add_producer_field(producer: &ProducerField, uses: &mut Seq<NameUse>) -> Result<(), AllocError>
    ensures { OnOk result (uses.new ≡ uses.old ++ spec.producer_field_uses producer.now) }
{
    uses.push(NameUse {
        group: Group::OwnField,
        name: producer.field,
    })?;
    add_typed(producer.ty, producer.quals.as_slice(), uses)?;
    add_restriction(&producer.typed, uses)
}

fn add_disposer(disposer: &Disposer, uses: &mut Seq<NameUse>) -> Result<(), AllocError>
    ensures { OnOk result (uses.new ≡ uses.old ++ spec.disposer_uses disposer.now) }
{
    add_typed(disposer.ty, disposer.quals.as_slice(), uses)?;
    add_points(disposer.params.as_slice(), uses)?;
    add_annotations(Annotation::Binding, disposer.bindings.as_slice(), uses)
}

fn add_observer(observer: &Observer, uses: &mut Seq<NameUse>) -> Result<(), AllocError>
    ensures { OnOk result (uses.new ≡ uses.old ++ spec.observer_uses observer.now) }
{
    uses.push(NameUse {
        group: Group::Type,
        name: observer.ty,
    })?;
    add_annotations(Annotation::EventQualifier, observer.quals.as_slice(), uses)?;
    add_points(observer.params.as_slice(), uses)?;
    add_annotations(Annotation::Binding, observer.bindings.as_slice(), uses)
}

fn add_member(member: &Member, uses: &mut Seq<NameUse>) -> Result<(), AllocError>
    ensures { OnOk result (uses.new ≡ uses.old ++ spec.uses_of_member member.now) }
{
    match member {
        Member::Method(method) => {
            add_annotations(Annotation::Binding, method.bindings.as_slice(), uses)
        }
        Member::Initializer(initializer) => add_points(initializer.params.as_slice(), uses),
        Member::PostConstruct(_) | Member::PreDestroy(_) => Ok(()),
        Member::Producer(producer) => add_producer(producer, uses),
        Member::ProducerField(producer) => add_producer_field(producer, uses),
        Member::Disposer(disposer) => add_disposer(disposer, uses),
        Member::Observer(observer) => add_observer(observer, uses),
    }
}

fn add_injected_field(field: &InjectedField, uses: &mut Seq<NameUse>) -> Result<(), AllocError>
    ensures { OnOk result
        (uses.new ≡ uses.old ++ spec.typed_uses field.now.ty field.now.quals) }
{
    add_typed(field.ty, field.quals.as_slice(), uses)
}

fn add_name(group: Group, name: Name, uses: &mut Seq<NameUse>) -> Result<(), AllocError>
    ensures { OnOk result (uses.new ≡ uses.old ++ map (spec.of_group group) (name ∷ [])) }
{
    uses.push(NameUse { group, name })?;
    Ok(())
}

fn add_element(element: &Element<'_>, uses: &mut Seq<NameUse>) -> Result<(), AllocError>
    ensures { OnOk result (uses.new ≡ uses.old ++ spec.uses_of (element_of element.now)) }
{
    match element {
        Element::Interface(interface) => {
            add_names(&Group::Interface, interface.extends.as_slice(), uses)
        }
        Element::Qualifier(qualifier) => {
            add_names(&Group::OwnMember, qualifier.nonbinding.as_slice(), uses)
        }
        Element::Binding(binding) => {
            add_names(&Group::OwnMember, binding.nonbinding.as_slice(), uses)
        }
        Element::Class { class, .. } => add_class(class, uses),
        Element::InjectedField { field, .. } => add_injected_field(field, uses),
        Element::Constructor { constructor, .. } => {
            add_points(constructor.params.as_slice(), uses)
        }
        Element::Member { member, .. } => add_member(member, uses),
        Element::Interceptor { interceptor, .. } => {
            add_annotations(Annotation::Binding, interceptor.bindings.as_slice(), uses)
        }
        Element::InterceptorInjectedField { field, .. } => add_injected_field(field, uses),
        Element::SelectedName(name) => add_name(Group::BeanClass, **name, uses),
        Element::OrderedName(name) => add_name(Group::Interceptor, **name, uses),
        _ => Ok(()),
    }
}

/// The names that an element uses, in their order, each with the group that it has to be of.
pub fn uses_of(alloc: Global, element: &Element<'_>) -> Result<Seq<NameUse>, AllocError>
    ensures { IfOk result (λ uses. uses ≡ spec.uses_of (element_of element.now)) }
{
    let mut uses = Seq::empty(alloc);
    add_element(element, &mut uses)?;
    Ok(uses)
}

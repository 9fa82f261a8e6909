//! How long the lists of a deployment may be. Entries count as they were written, repeated ones too.
ghost use Rattle.std.specs.Prelude.{◌≡◌, ◌+◌, nat_le};
ghost use Rattle.std.specs.List.{list_all};
ghost use Rattle.cdi_deployment.specs.Limits as spec;

use crate::deployment::{
    AnnotationType, Bean, Class, Constructor, Deployment, InjectedField, Interceptor, Interface,
    Member, Point,
};
use cdi_base::{Name, Seq, Use};

/// The most types of a deployment: its interfaces, classes and interceptors together.
pub const MAX_TYPES: usize = 1024;

/// The most qualifiers of a deployment, and so its most bindings, exceptions, selected classes and names in the order of
/// interceptors.
pub const MAX_DECLARED: usize = 1024;

/// The most scripts of a deployment.
pub const MAX_SCRIPTS: usize = 1024;

/// The most fields of a class or an interceptor, those that hold values and the injected ones together.
pub const MAX_FIELDS: usize = 64;

/// The most members of a class.
pub const MAX_MEMBERS: usize = 64;

/// The most parameters of a constructor or a member.
pub const MAX_PARAMETERS: usize = 16;

/// The most uses in a list.
pub const MAX_USES: usize = 16;

/// The most members of a qualifier or a binding.
pub const MAX_ANNOTATION_MEMBERS: usize = 8;

/// The most names in a list that has no limit of its own.
pub const MAX_NAMES_LISTED: usize = 64;

fn are_names_within(names: &Seq<Name>) -> bool
    ensures { result ≡ spec.are_names_within names.now }
{
    names.len() <= MAX_NAMES_LISTED
}

fn are_uses_within(uses: &Seq<Use>) -> bool
    ensures { result ≡ spec.are_uses_within uses.now }
{
    uses.len() <= MAX_USES
}

fn is_typed_within(typed: &Option<Seq<Name>>) -> bool
    ensures { result ≡ spec.is_typed_within typed.now }
{
    match typed {
        Some(names) => are_names_within(names),
        None => true,
    }
}

/// Whether an interface extends at most [`MAX_NAMES_LISTED`] interfaces.
pub fn is_interface_within(interface: &Interface) -> bool
    ensures { result ≡ spec.is_interface_within interface.now }
{
    are_names_within(&interface.extends)
}

/// Whether a qualifier type or an interceptor binding type has at most [`MAX_ANNOTATION_MEMBERS`] members, and names at
/// most [`MAX_NAMES_LISTED`] of them as nonbinding.
pub fn is_annotation_type_within(annotation: &AnnotationType) -> bool
    ensures { result ≡ spec.is_annotation_type_within annotation.now }
{
    annotation.members.len() <= MAX_ANNOTATION_MEMBERS && are_names_within(&annotation.nonbinding)
}

fn is_bean_within(bean: &Option<Bean>) -> bool
    ensures { result ≡ spec.is_bean_within bean.now }
{
    match bean {
        Some(bean) => are_uses_within(&bean.quals) && is_typed_within(&bean.typed),
        None => true,
    }
}

fn are_injected_within(fields: &[InjectedField]) -> bool
    ensures { result ≡ spec.are_injected_within fields.now }
{
    fields.iter().all(|field| are_uses_within(&field.quals))
}

fn are_points_within(points: &[Point]) -> bool
    ensures { result ≡ list_all (λ p. spec.are_uses_within p.quals) points.now }
{
    points.iter().all(|point| are_uses_within(&point.quals))
}

fn are_params_within(params: &[Point]) -> bool
    ensures { result ≡ spec.are_params_within params.now }
{
    params.len() <= MAX_PARAMETERS && are_points_within(params)
}

fn is_constructor_within(constructor: &Option<Constructor>) -> bool
    ensures { result ≡ spec.is_constructor_within constructor.now }
{
    match constructor {
        Some(constructor) => are_params_within(constructor.params.as_slice()),
        None => true,
    }
}

fn is_member_within(member: &Member) -> bool
    ensures { result ≡ spec.is_member_within member.now }
{
    match member {
        Member::Method(method) => are_uses_within(&method.bindings),
        Member::Initializer(initializer) => are_params_within(initializer.params.as_slice()),
        Member::PostConstruct(_) => true,
        Member::PreDestroy(_) => true,
        Member::Producer(producer) => are_uses_within(&producer.quals)
            && is_typed_within(&producer.typed)
            && are_params_within(producer.params.as_slice())
            && are_uses_within(&producer.bindings),
        Member::ProducerField(producer) => are_uses_within(&producer.quals)
            && is_typed_within(&producer.typed),
        Member::Disposer(disposer) => are_uses_within(&disposer.quals)
            && are_params_within(disposer.params.as_slice())
            && are_uses_within(&disposer.bindings),
        Member::Observer(observer) => are_uses_within(&observer.quals)
            && are_params_within(observer.params.as_slice())
            && are_uses_within(&observer.bindings),
    }
}

fn are_members_within(members: &[Member]) -> bool
    ensures { result ≡ list_all spec.is_member_within members.now }
{
    members.iter().all(|member| is_member_within(member))
}

/// Whether there are at most [`MAX_FIELDS`] fields that hold values and injected fields together.
pub fn are_fields_within(fields: usize, inject: usize) -> bool
    ensures { result ≡ spec.are_fields_within fields inject }
{
    inject <= MAX_FIELDS && fields <= MAX_FIELDS - inject
}

/// Whether no list of a class is longer than its limit.
pub fn is_class_within(class: &Class) -> bool
    ensures { result ≡ spec.is_class_within class.now }
{
    are_fields_within(class.fields.len(), class.inject.len())
        && class.members.len() <= MAX_MEMBERS
        && are_names_within(&class.implements)
        && are_uses_within(&class.bindings)
        && is_bean_within(&class.bean)
        && are_injected_within(class.inject.as_slice())
        && is_constructor_within(&class.constructor)
        && are_members_within(class.members.as_slice())
}

/// Whether no list of an interceptor is longer than its limit.
pub fn is_interceptor_within(interceptor: &Interceptor) -> bool
    ensures { result ≡ spec.is_interceptor_within interceptor.now }
{
    are_fields_within(interceptor.fields.len(), interceptor.inject.len())
        && are_uses_within(&interceptor.bindings)
        && are_injected_within(interceptor.inject.as_slice())
}

fn are_interfaces_within(interfaces: &[Interface]) -> bool
    ensures { result ≡ list_all spec.is_interface_within interfaces.now }
{
    interfaces
        .iter()
        .all(|interface| is_interface_within(interface))
}

fn are_annotation_types_within(annotations: &[AnnotationType]) -> bool
    ensures { result ≡ list_all spec.is_annotation_type_within annotations.now }
{
    annotations
        .iter()
        .all(|annotation| is_annotation_type_within(annotation))
}

fn are_classes_within(classes: &[Class]) -> bool
    ensures { result ≡ list_all spec.is_class_within classes.now }
{
    classes.iter().all(|class| is_class_within(class))
}

fn are_interceptors_within(interceptors: &[Interceptor]) -> bool
    ensures { result ≡ list_all spec.is_interceptor_within interceptors.now }
{
    interceptors
        .iter()
        .all(|interceptor| is_interceptor_within(interceptor))
}

/// Whether the sum of three lengths is at most [`MAX_TYPES`]: each is looked at first, so that no sum wraps.
fn is_sum_within(interfaces: usize, classes: usize, interceptors: usize) -> bool
    ensures { result ≡ nat_le (interfaces + classes + interceptors) 1024 }
{
    interfaces <= MAX_TYPES
        && classes <= MAX_TYPES - interfaces
        && interceptors <= MAX_TYPES - interfaces - classes
}

/// Whether a deployment has at most [`MAX_TYPES`] interfaces, classes and interceptors together.
pub fn are_types_within(deployment: &Deployment) -> bool
    ensures { result ≡ spec.are_types_within deployment.now }
{
    is_sum_within(
        deployment.interfaces.len(),
        deployment.classes.len(),
        deployment.interceptors.len(),
    )
}

fn is_length_within(deployment: &Deployment) -> bool
    ensures { result ≡ spec.is_length_within deployment.now }
{
    are_types_within(deployment)
        && deployment.scripts.len() <= MAX_SCRIPTS
        && deployment.qualifiers.len() <= MAX_DECLARED
        && deployment.bindings.len() <= MAX_DECLARED
        && deployment.exceptions.len() <= MAX_DECLARED
        && deployment.selected.len() <= MAX_DECLARED
        && deployment.order.len() <= MAX_DECLARED
}

/// Whether no list of a deployment is longer than its limit.
pub fn is_within(deployment: &Deployment) -> bool
    ensures { result ≡ spec.is_within deployment.now }
{
    is_length_within(deployment)
        && are_classes_within(deployment.classes.as_slice())
        && are_interfaces_within(deployment.interfaces.as_slice())
        && are_annotation_types_within(deployment.qualifiers.as_slice())
        && are_annotation_types_within(deployment.bindings.as_slice())
        && are_interceptors_within(deployment.interceptors.as_slice())
}

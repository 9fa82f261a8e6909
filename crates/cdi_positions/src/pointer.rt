//! The JSON Pointer to the place of a problem.
ghost use Rattle.std.specs.Prelude.{◌≡◌, option_map, string_bytes, IfOk};
ghost use Rattle.cdi_positions.specs.Pointers as spec;

use crate::declared::{
    annotation_named, class_named, exception_named, field_named, injected_field_named,
    interceptor_named, interface_named, listed_name, member_named, script_named,
};
use cdi_base::{InterceptorMethod, Name, Place};
use cdi_deployment::{Class, Deployment, Interceptor};
use std::alloc::{AllocError, Global};

/// The pointer to an item of a list below another pointer.
fn item_pointer(alloc: Global, front: &str, list: &str, index: usize) -> Result<String, AllocError>
    ensures { IfOk result (λ text.
        string_bytes text ≡ spec.item_pointer front.now list.now index) }
{
    format!(in alloc; "{front}/{list}/{index}")
}

/// The pointer to a part with a key below another pointer.
fn part_pointer(alloc: Global, front: &str, key: &str) -> Result<String, AllocError>
    ensures { IfOk result (λ text. string_bytes text ≡ spec.part_pointer front.now key.now) }
{
    format!(in alloc; "{front}/{key}")
}

/// The pointer to what declares a type, a qualifier, a binding or an exception.
fn declaration_pointer(
    alloc: Global,
    deployment: &Deployment,
    name: Name,
) -> Result<Option<String>, AllocError>
    ensures { IfOk result (λ text.
        option_map string_bytes text ≡ spec.declaration_pointer deployment.now name) }
{
    if let Some(index) = interface_named(deployment.interfaces.as_slice(), name) {
        return Ok(Some(item_pointer(alloc, "", "interfaces", index)?));
    }
    if let Some(index) = annotation_named(deployment.qualifiers.as_slice(), name) {
        return Ok(Some(item_pointer(alloc, "", "qualifiers", index)?));
    }
    if let Some(index) = annotation_named(deployment.bindings.as_slice(), name) {
        return Ok(Some(item_pointer(alloc, "", "bindings", index)?));
    }
    if let Some(index) = exception_named(deployment.exceptions.as_slice(), name) {
        return Ok(Some(item_pointer(alloc, "", "exceptions", index)?));
    }
    if let Some(index) = class_named(deployment.classes.as_slice(), name) {
        return Ok(Some(item_pointer(alloc, "", "classes", index)?));
    }
    Ok(None)
}

/// The pointer to an interceptor, to a name in a list, or to a script.
fn listing_pointer(
    alloc: Global,
    deployment: &Deployment,
    name: Name,
) -> Result<Option<String>, AllocError>
    ensures { IfOk result (λ text.
        option_map string_bytes text ≡ spec.listing_pointer deployment.now name) }
{
    if let Some(index) = interceptor_named(deployment.interceptors.as_slice(), name) {
        return Ok(Some(item_pointer(alloc, "", "interceptors", index)?));
    }
    if let Some(index) = listed_name(deployment.selected.as_slice(), name) {
        return Ok(Some(item_pointer(alloc, "", "selected", index)?));
    }
    if let Some(index) = listed_name(deployment.order.as_slice(), name) {
        return Ok(Some(item_pointer(alloc, "", "order", index)?));
    }
    if let Some(index) = script_named(deployment.scripts.as_slice(), name) {
        return Ok(Some(item_pointer(alloc, "", "scripts", index)?));
    }
    Ok(None)
}

/// The pointer to the first thing of the deployment itself with a name, in the order of places.
fn name_pointer(
    alloc: Global,
    deployment: &Deployment,
    name: Name,
) -> Result<Option<String>, AllocError>
    ensures { IfOk result (λ text.
        option_map string_bytes text ≡ spec.name_pointer deployment.now name) }
{
    match declaration_pointer(alloc, deployment, name)? {
        Some(pointer) => Ok(Some(pointer)),
        None => listing_pointer(alloc, deployment, name),
    }
}

/// The pointer to a field or a member in a class at a pointer.
fn pointer_in_class(
    alloc: Global,
    front: &str,
    class: &Class,
    name: Name,
) -> Result<Option<String>, AllocError>
    ensures { IfOk result (λ text.
        option_map string_bytes text ≡ spec.pointer_in_class front.now class.now name) }
{
    if let Some(index) = field_named(class.fields.as_slice(), name) {
        return Ok(Some(item_pointer(alloc, front, "fields", index)?));
    }
    if let Some(index) = injected_field_named(class.inject.as_slice(), name) {
        return Ok(Some(item_pointer(alloc, front, "inject", index)?));
    }
    if let Some(index) = member_named(class.members.as_slice(), name) {
        return Ok(Some(item_pointer(alloc, front, "members", index)?));
    }
    Ok(None)
}

/// The pointer to a field in an interceptor at a pointer.
fn pointer_in_interceptor(
    alloc: Global,
    front: &str,
    interceptor: &Interceptor,
    name: Name,
) -> Result<Option<String>, AllocError>
    ensures { IfOk result (λ text.
        option_map string_bytes text ≡ spec.pointer_in_interceptor front.now interceptor.now name) }
{
    if let Some(index) = field_named(interceptor.fields.as_slice(), name) {
        return Ok(Some(item_pointer(alloc, front, "fields", index)?));
    }
    if let Some(index) = injected_field_named(interceptor.inject.as_slice(), name) {
        return Ok(Some(item_pointer(alloc, front, "inject", index)?));
    }
    Ok(None)
}

/// The pointer to a field or a member of the first class with a name, or to a field of the first such interceptor.
fn member_pointer(
    alloc: Global,
    deployment: &Deployment,
    owner: Name,
    name: Name,
) -> Result<Option<String>, AllocError>
    ensures { IfOk result (λ text.
        option_map string_bytes text ≡ spec.member_pointer deployment.now owner name) }
{
    if let Some(index) = class_named(deployment.classes.as_slice(), owner) {
        let front = item_pointer(alloc, "", "classes", index)?;
        return match deployment.classes.get(index) {
            Some(class) => pointer_in_class(alloc, &front, class, name),
            None => Ok(None),
        };
    }
    if let Some(index) = interceptor_named(deployment.interceptors.as_slice(), owner) {
        let front = item_pointer(alloc, "", "interceptors", index)?;
        return match deployment.interceptors.get(index) {
            Some(interceptor) => pointer_in_interceptor(alloc, &front, interceptor, name),
            None => Ok(None),
        };
    }
    Ok(None)
}

fn method_key(method: InterceptorMethod) -> &'static str
    ensures { result.now ≡ spec.method_key method }
{
    match method {
        InterceptorMethod::AroundInvoke => "invoke",
        InterceptorMethod::AroundConstruct => "construct",
        InterceptorMethod::PostConstruct => "post",
        InterceptorMethod::PreDestroy => "pre",
    }
}

/// The pointer to a part of the first class with a name.
fn class_part_pointer(
    alloc: Global,
    deployment: &Deployment,
    class: Name,
    key: &str,
) -> Result<Option<String>, AllocError>
    ensures { IfOk result (λ text.
        option_map string_bytes text ≡ spec.class_part_pointer deployment.now class key.now) }
{
    let Some(index) = class_named(deployment.classes.as_slice(), class) else {
        return Ok(None);
    };
    let front = item_pointer(alloc, "", "classes", index)?;
    Ok(Some(part_pointer(alloc, &front, key)?))
}

/// The pointer to a part of the first interceptor with a name.
fn interceptor_part_pointer(
    alloc: Global,
    deployment: &Deployment,
    interceptor: Name,
    key: &str,
) -> Result<Option<String>, AllocError>
    ensures { IfOk result (λ text. option_map string_bytes text
        ≡ spec.interceptor_part_pointer deployment.now interceptor key.now) }
{
    let Some(index) = interceptor_named(deployment.interceptors.as_slice(), interceptor) else {
        return Ok(None);
    };
    let front = item_pointer(alloc, "", "interceptors", index)?;
    Ok(Some(part_pointer(alloc, &front, key)?))
}

/// The JSON Pointer (RFC 6901) to what a deployment has at a place, in the text that the deployment was read from. If several things
/// have the name it is the first, in the order of places. There is none if nothing is there. The one error is [`AllocError`], if a
/// growth was refused.
pub fn pointer_at(
    alloc: Global,
    deployment: &Deployment,
    place: &Place,
) -> Result<Option<String>, AllocError>
    ensures { IfOk result (λ text.
        option_map string_bytes text ≡ spec.pointer_at deployment.now place.now) }
{
    match place {
        Place::Class(name) => name_pointer(alloc, deployment, *name),
        Place::Member { class, member } => member_pointer(alloc, deployment, *class, *member),
        Place::Constructor(class) => class_part_pointer(alloc, deployment, *class, "constructor"),
        Place::Interceptor {
            interceptor,
            method,
        } => interceptor_part_pointer(alloc, deployment, *interceptor, method_key(*method)),
    }
}

//! Sets of the names that a deployment declares.
ghost use Rattle.std.specs.Prelude.{◌≡◌, ◌==◌, ◌&&◌, ◌||◌, ℕ, not, is_some, IfOk, OnOk};
ghost use Rattle.std.specs.HashSet.{contains};
ghost use Rattle.std.specs.List.{list_any};
ghost use Rattle.cdi_deployment.specs.Lists as lists;
ghost use Rattle.cdi_name_check.specs.NameSets as sets;
ghost use Rattle.cdi_name_check.specs.UnknownName as spec;

use cdi_base::Name;
use cdi_deployment::{AnnotationType, Class, Deployment, Interceptor, Interface};
use std::alloc::{AllocError, Global};
use std::collections::HashSet;

/// The names of qualifiers or bindings, and those of their members, each with that of its owner.
#[derive(Drop)]
pub(super) struct AnnotationSets {
    pub(super) names: HashSet<Name>,
    pub(super) members: HashSet<(Name, Name)>,
}

/// The names of each kind that a deployment declares. It borrows nothing.
#[derive(Drop)]
pub struct NameSets {
    pub(super) interfaces: HashSet<Name>,
    pub(super) classes: HashSet<Name>,
    /// The classes that aren't final.
    pub(super) open_classes: HashSet<Name>,
    /// The classes that are beans.
    pub(super) bean_classes: HashSet<Name>,
    pub(super) interceptors: HashSet<Name>,
    pub(super) qualifiers: AnnotationSets,
    pub(super) bindings: AnnotationSets,
}

fn interface_names(alloc: Global, interfaces: &[Interface]) -> Result<HashSet<Name>, AllocError>
    ensures { IfOk result
        (sets.HasNames (λ name. list_any (λ i. i.name == name) interfaces.now)) }
{
    let mut set = HashSet::new(alloc);
    for interface in interfaces {
        set.insert(interface.name)?;
    }
    Ok(set)
}

fn class_names(alloc: Global, classes: &[Class]) -> Result<HashSet<Name>, AllocError>
    ensures { IfOk result (sets.HasNames (λ name. list_any (λ c. c.name == name) classes.now)) }
{
    let mut set = HashSet::new(alloc);
    for class in classes {
        set.insert(class.name)?;
    }
    Ok(set)
}

fn open_class_names(alloc: Global, classes: &[Class]) -> Result<HashSet<Name>, AllocError>
    ensures { IfOk result (sets.HasNames
        (λ name. list_any (λ c. (c.name == name) && not c.is_final) classes.now)) }
{
    let mut set = HashSet::new(alloc);
    for class in classes {
        if !class.is_final {
            set.insert(class.name)?;
        }
    }
    Ok(set)
}

fn bean_class_names(alloc: Global, classes: &[Class]) -> Result<HashSet<Name>, AllocError>
    ensures { IfOk result (sets.HasNames
        (λ name. list_any (λ c. (c.name == name) && is_some c.bean) classes.now)) }
{
    let mut set = HashSet::new(alloc);
    for class in classes {
        if class.bean.is_some() {
            set.insert(class.name)?;
        }
    }
    Ok(set)
}

fn interceptor_names(
    alloc: Global,
    interceptors: &[Interceptor],
) -> Result<HashSet<Name>, AllocError>
    ensures { IfOk result
        (sets.HasNames (λ name. list_any (λ j. j.name == name) interceptors.now)) }
{
    let mut set = HashSet::new(alloc);
    for interceptor in interceptors {
        set.insert(interceptor.name)?;
    }
    Ok(set)
}

fn annotation_names(alloc: Global, types: &[AnnotationType]) -> Result<HashSet<Name>, AllocError>
    ensures { IfOk result (sets.HasNames (spec.is_declared types.now)) }
{
    let mut set = HashSet::new(alloc);
    for declared in types {
        set.insert(declared.name)?;
    }
    Ok(set)
}

/// Adds the members of a qualifier or a binding.
fn add_members(declared: &AnnotationType, set: &mut HashSet<(Name, Name)>) -> Result<(), AllocError>
    ensures { OnOk result ((owner name : ℕ) → contains sets.same_pair set.new (owner, name)
        ≡ (contains sets.same_pair set.old (owner, name)
        || (declared.now.name == owner && lists.stands_in declared.now.members name))) }
{
    for name in declared.members.as_slice() {
        set.insert((declared.name, *name))?;
    }
    Ok(())
}

fn members_of(alloc: Global, types: &[AnnotationType]) -> Result<HashSet<(Name, Name)>, AllocError>
    ensures { IfOk result (sets.HasPairs (spec.has_member types.now)) }
{
    let mut set = HashSet::new(alloc);
    for declared in types {
        add_members(declared, &mut set)?;
    }
    Ok(set)
}

impl AnnotationSets {
    /// The names of some qualifiers or bindings.
    fn of(alloc: Global, types: &[AnnotationType]) -> Result<AnnotationSets, AllocError>
        ensures { IfOk result (sets.HasTypes types.now) }
    {
        Ok(AnnotationSets {
            names: annotation_names(alloc, types)?,
            members: members_of(alloc, types)?,
        })
    }
}

impl NameSets {
    /// The names that a deployment declares.
    pub fn of(alloc: Global, deployment: &Deployment) -> Result<NameSets, AllocError>
        ensures { IfOk result (sets.HasDeclared deployment.now) }
    {
        let classes = deployment.classes.as_slice();
        Ok(NameSets {
            interfaces: interface_names(alloc, deployment.interfaces.as_slice())?,
            classes: class_names(alloc, classes)?,
            open_classes: open_class_names(alloc, classes)?,
            bean_classes: bean_class_names(alloc, classes)?,
            interceptors: interceptor_names(alloc, deployment.interceptors.as_slice())?,
            qualifiers: AnnotationSets::of(alloc, deployment.qualifiers.as_slice())?,
            bindings: AnnotationSets::of(alloc, deployment.bindings.as_slice())?,
        })
    }
}

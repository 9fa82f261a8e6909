//! Which observers hear an event. A line for each injected field of the last class, which stands for an event of its type and qualifiers,
//! tells the groups of observers that hear it: each group has its priority and, behind `:`, its observers as `Class#member`, after the
//! bean and `/` where the class of the bean is another one; it ends with `;`.
use cdi_base::{Name, Names, OrMemory, Seq};
use cdi_beans::{BeanList, ListedBeans, ObserverMethod};
use cdi_deploy::read;
use cdi_deployment::{Deployment, InjectedField};
use cdi_enable::laws::law_forest;
use cdi_enable::{EnabledSet, enabled};
use cdi_observers::{ObserverGroup, Observers};
use cdi_quals::{QualSet, QualifierTypes};
use cdi_tests_player::Scene;
use cdi_types::TypeTable;
use std::alloc::{AllocError, Global};
use std::mem;

/// Adds a space, unless a line begins here.
fn push_space(text: &mut String) -> Result<(), AllocError> {
    if text.is_empty() || text.as_str().ends_with('\n') {
        return Ok(());
    }
    text.push(' ')
}

/// Adds a name behind a text.
fn push_name(text: &mut String, names: &Names, before: &str, name: Name) -> Result<(), AllocError> {
    text.push_str(before)?;
    text.push_str(names.get(name).unwrap_or("?"))
}

fn push_observer(
    names: &Names,
    observer: &ObserverMethod,
    text: &mut String,
) -> Result<(), AllocError> {
    push_space(text)?;
    push_name(text, names, "", observer.bean)?;
    if observer.bean != observer.class {
        push_name(text, names, "/", observer.class)?;
    }
    push_name(text, names, "#", observer.name)
}

fn push_at(
    names: &Names,
    observers: &Observers,
    index: usize,
    text: &mut String,
) -> Result<(), AllocError> {
    match observers.observer(index) {
        Some(observer) => push_observer(names, observer, text),
        None => text.push_str(" ?"),
    }
}

fn push_group(
    names: &Names,
    observers: &Observers,
    group: &ObserverGroup,
    text: &mut String,
) -> Result<(), AllocError> {
    push_space(text)?;
    let priority = group.priority;
    write!(text, "{priority}:")?;
    for index in group.observers.as_slice() {
        push_at(names, observers, *index, text)?;
    }
    text.push(';')
}

/// Adds a line with who hears an event of a class with these qualifiers.
fn push_heard(
    names: &Names,
    observers: &Observers,
    groups: &[ObserverGroup],
    text: &mut String,
) -> Result<(), AllocError> {
    for group in groups {
        push_group(names, observers, group, text)?;
    }
    text.push('\n')
}

fn push_event(
    alloc: Global,
    names: &Names,
    types: &QualifierTypes,
    observers: &Observers,
    event: &InjectedField,
    text: &mut String,
) -> Result<(), AllocError> {
    let qualifiers = QualSet::new(alloc, names, types, event.quals.as_slice())?;
    let groups = observers.matching(alloc, event.ty, &qualifiers)?;
    push_heard(names, observers, groups.as_slice(), text)
}

/// The injected fields of the last class, which stand for events.
fn events_of(deployment: &Deployment) -> &[InjectedField] {
    match deployment.classes.as_slice().last() {
        Some(class) => class.inject.as_slice(),
        None => &[],
    }
}

/// A line for each event.
fn lines_of(
    alloc: Global,
    deployment: &Deployment,
    types: &QualifierTypes,
    observers: &Observers,
) -> Result<String, AllocError> {
    let mut text = String::new(alloc);
    for event in events_of(deployment) {
        push_event(alloc, &deployment.names, types, observers, event, &mut text)?;
    }
    Ok(text)
}

/// A bean list with the enabled ones of its beans.
#[derive(Drop)]
struct Listed {
    list: BeanList,
    enabled: EnabledSet,
}

/// The bean list of a deployment, if it has no problems, with the enabled ones of its beans.
fn list_of(alloc: Global, deployment: &Deployment) -> Result<Option<Listed>, AllocError> {
    law_forest();
    match ListedBeans::build(alloc, deployment) {
        Ok(beans) => {
            let list = beans.list;
            let enabled = enabled(alloc, &list)?;
            Ok(Some(Listed { list, enabled }))
        }
        Err(OrMemory::Fault(_)) => Ok(None),
        Err(OrMemory::Memory) => Err(AllocError),
    }
}

/// The enabled ones of some observers, unless the deployment has no table of types.
fn enabled_ones(
    alloc: Global,
    deployment: &Deployment,
    observers: Seq<ObserverMethod>,
    enabled: &EnabledSet,
) -> Result<Option<Observers>, AllocError> {
    match TypeTable::build(alloc, deployment) {
        Ok(types) => Ok(Some(Observers::build(alloc, observers, enabled, types)?)),
        Err(OrMemory::Memory) => Err(AllocError),
        Err(_) => Ok(None),
    }
}

fn enabled_observers(
    alloc: Global,
    deployment: &Deployment,
    mut listed: Listed,
) -> Result<Option<Observers>, AllocError> {
    let observers = mem::replace(&mut listed.list.observers, Seq::empty(alloc));
    enabled_ones(alloc, deployment, observers, &listed.enabled)
}

fn heard(
    alloc: Global,
    deployment: &Deployment,
    observers: &Observers,
) -> Result<String, AllocError> {
    let types = QualifierTypes::qualifiers_of(alloc, deployment)?;
    lines_of(alloc, deployment, &types, observers)
}

/// The enabled observers of a deployment without problems.
fn observers_of(alloc: Global, deployment: &Deployment) -> Result<Option<Observers>, AllocError> {
    match list_of(alloc, deployment)? {
        Some(listed) => enabled_observers(alloc, deployment, listed),
        None => Ok(None),
    }
}

/// Which observers hear the events of a deployment.
fn hearers(alloc: Global, deployment: &Deployment) -> Result<String, AllocError> {
    match observers_of(alloc, deployment)? {
        Some(observers) => heard(alloc, deployment, &observers),
        None => String::from_str(alloc, "problems\n"),
    }
}

/// Which observers hear an event, in the deployment of a run.
pub(crate) fn observers_answers(alloc: Global, scene: &Scene) -> Result<String, AllocError> {
    let text = scene.whole_deployment(alloc)?;
    match read(alloc, text.as_str().as_bytes()) {
        Ok(deployment) => hearers(alloc, &deployment),
        Err(_) => String::from_str(alloc, "not read\n"),
    }
}

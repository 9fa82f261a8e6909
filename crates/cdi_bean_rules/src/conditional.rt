//! Conditional observers.
ghost use Rattle.std.specs.Prelude.{◌≡◌, ◌||◌, IfOk, OnOk};
ghost use Rattle.cdi_bean_check.specs.ManagedBeans.{has_dependent_scope as is_dependent_of};
ghost use Rattle.cdi_bean_check.specs.MemberPlaces.{MemberPlace, has_place as is_place_of, stands_at, HasPlaces, AddsPlaces};
ghost use Rattle.cdi_bean_rules.specs.Observers as spec;

use cdi_base::{Name, Scope};
use cdi_bean_check::member_places::has_place;
use cdi_deployment::{Bean, Class, Member};
use cdi_problems::{Element, Rule};
use cdi_types::{ClassIndex, ClassPart, MemberKind, TypeTable};
use std::alloc::{AllocError, Global};
use std::collections::HashSet;

/// A bean of the dependent pseudo-scope has a conditional observer (Jakarta CDI 4.0, *Conditional observer methods*). It stands at
/// the observer, also if that is inherited.
#[derive(Clone, Copy)]
pub struct ConditionalDependent<'a> {
    /// Where such observers are declared: the name of a class, and that of a member.
    pub places: &'a HashSet<(Name, Name)>,
}

fn has_dependent_scope(bean: &Option<Bean>) -> bool
    ensures { result ≡ is_dependent_of bean.now }
{
    match bean {
        Some(bean) => matches!(bean.scope, Scope::Dependent),
        None => false,
    }
}

fn is_conditional(member: &Member) -> bool
    ensures { result ≡ spec.is_conditional member.now }
{
    match member {
        Member::Observer(observer) => observer.if_exists,
        _ => false,
    }
}

/// Where a member is declared, if it is a conditional observer.
fn conditional_place(declared: &ClassPart<'_, Member>) -> Option<(Name, Name)>
    ensures { result ≡ spec.conditional_place declared.now }
{
    if is_conditional(declared.part) {
        Some((declared.class.name, declared.part.name()))
    } else {
        None
    }
}

/// Adds the places of the conditional observers among members.
fn add_conditional(
    members: &[ClassPart<'_, Member>],
    found: &mut HashSet<(Name, Name)>,
) -> Result<(), AllocError>
    ensures { OnOk result ((place : MemberPlace) → is_place_of found.new place
        ≡ (stands_at (spec.conditional_places members.now) place || is_place_of found.old place)) }
{
    for member in members {
        if let Some(place) = conditional_place(member) {
            found.insert(place)?;
        }
    }
    Ok(())
}

/// Adds the places of the conditional observers that a class has if it is a bean of the dependent pseudo-scope.
fn add_of_class(
    alloc: Global,
    index: &ClassIndex<'_>,
    types: &TypeTable,
    class: &Class,
    found: &mut HashSet<(Name, Name)>,
) -> Result<(), AllocError>
    ensures { OnOk result
        (AddsPlaces (spec.HasConditionalAt index.now types.now class.now) found.old found.new) }
{
    if !has_dependent_scope(&class.bean) {
        return Ok(());
    }
    let line = index.line(alloc, types, class.name)?;
    let observers = line.members_of_kind(alloc, MemberKind::Observer)?;
    add_conditional(observers.as_slice(), found)
}

/// Where conditional observers are declared that a bean of the dependent pseudo-scope has: the name of a class, and that of a
/// member. This is the index of the classes. For each such bean it goes over the class and all its superclasses.
pub fn conditional_of_dependent(
    alloc: Global,
    classes: &[Class],
    index: &ClassIndex<'_>,
    types: &TypeTable,
) -> Result<HashSet<(Name, Name)>, AllocError>
    requires { index.now ≡ classes.now }
    ensures { IfOk result (HasPlaces (spec.IsConditionalAt classes.now types.now)) }
{
    let mut found = HashSet::new(alloc);
    for class in classes {
        add_of_class(alloc, index, types, class, &mut found)?;
    }
    Ok(found)
}

impl Rule for ConditionalDependent<'_> {
    ghost use Rattle.cdi_bean_rules.specs.Observers.{IsMemberAt};

    ghost holds_at = { λ rule e. IsMemberAt rule.places.now e };

    fn holds(&self, element: &Element<'_>) -> bool {
        match element {
            Element::Member { class, member, .. } => {
                has_place(self.places, class.name, member.name())
            }
            _ => false,
        }
    }
}

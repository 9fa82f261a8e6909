//! The beans that nearly have what a point asks for.
ghost use Rattle.std.specs.Prelude.{◌≡◌, ◌++◌, IfOk, OnOk};
ghost use Rattle.cdi_bean_check.specs.Qualifiers.{full_uses};
ghost use Rattle.cdi_candidates.specs.Near as spec;
ghost use Rattle.cdi_enable.specs.Enablement as enablement;
ghost use Rattle.cdi_resolve.specs.Filters as filters;

use crate::point::place_of;
use crate::qualified::{eligible, has_all, has_type, required};
use cdi_base::{Name, Place, Seq, Use};
use cdi_beans::Bean;
use cdi_quals::Qualifier;
use cdi_resolve::BeanTables;
use std::alloc::{AllocError, Global};

/// What keeps a bean from being what a point asks for.
#[derive(Drop)]
pub enum Lack {
    /// It is enabled, and lacks the required qualifiers of these names.
    Qualifiers(Seq<Name>),
    /// It isn't enabled: it is an alternative, or the product of one, that isn't selected (Jakarta CDI 4.0, *Declaring selected
    /// alternatives*).
    NotSelected,
    /// It isn't enabled: a bean specializes it, or the one that declares it (Jakarta CDI 4.0, *Specialization*).
    Specialized,
}

/// A bean that nearly has what a point asks for.
#[derive(Drop)]
pub struct NearBean {
    /// Where it is declared: at its class, or at the producer.
    pub place: Place,
    pub lack: Lack,
}

/// What a point asks for, and the classes whose beans are selected alternatives.
#[derive(Clone, Copy)]
struct NearQuestion<'a> {
    selected: &'a [Name],
    ty: Name,
    required: &'a [Qualifier],
}

/// What a list says of an index; what isn't there isn't enabled.
fn has_flag(flags: &[bool], index: usize) -> bool
    ensures { result ≡ filters.is_enabled flags.now index }
{
    match flags.get(index) {
        Some(flag) => *flag,
        None => false,
    }
}

/// The names of the required qualifiers that a bean lacks.
fn lacked(alloc: Global, required: &[Qualifier], bean: &Bean) -> Result<Seq<Name>, AllocError>
    ensures { IfOk result (λ names. names ≡ spec.lacked required.now bean.now) }
{
    let mut names = Seq::empty(alloc);
    for qualifier in required {
        if !bean.qualifiers.has(qualifier) {
            names.push(qualifier.name)?;
        }
    }
    Ok(names)
}

fn is_listed(selected: &[Name], class: Name) -> bool
    ensures { result ≡ spec.is_listed selected.now class }
{
    selected.iter().any(|listed| *listed == class)
}

/// Whether a bean has a priority, or its class is listed.
fn is_selected(selected: &[Name], bean: &Bean) -> bool
    ensures { result ≡ enablement.is_selected selected.now bean.now }
{
    bean.priority.is_some() || is_listed(selected, bean.class)
}

/// Why a bean isn't enabled.
fn why_disabled(selected: &[Name], bean: &Bean) -> Lack
    ensures { result ≡ spec.why_disabled selected.now bean.now }
{
    if bean.alternative && !is_selected(selected, bean) {
        return Lack::NotSelected;
    }
    Lack::Specialized
}

/// What an enabled bean of the type lacks, if it lacks something.
fn lack_of_enabled(
    alloc: Global,
    required: &[Qualifier],
    bean: &Bean,
) -> Result<Option<Lack>, AllocError>
    ensures { IfOk result (λ lack. lack ≡ spec.lack_of_enabled required.now bean.now) }
{
    let names = lacked(alloc, required, bean)?;
    match names.as_slice() {
        [] => Ok(None),
        _ => Ok(Some(Lack::Qualifiers(names))),
    }
}

/// What a bean of the type that isn't enabled lacks beside that, if it has the qualifiers.
fn lack_of_disabled(question: &NearQuestion<'_>, bean: &Bean) -> Option<Lack>
    ensures { result ≡ spec.lack_of_disabled question.now.selected.now
        question.now.required.now bean.now }
{
    if !has_all(bean, question.required) {
        return None;
    }
    Some(why_disabled(question.selected, bean))
}

fn lack_of(
    alloc: Global,
    question: &NearQuestion<'_>,
    is_enabled: bool,
    bean: &Bean,
) -> Result<Option<Lack>, AllocError>
    ensures { IfOk result (λ lack. lack ≡ spec.lack_of question.now.selected.now
        question.now.required.now is_enabled bean.now) }
{
    if is_enabled {
        return lack_of_enabled(alloc, question.required, bean);
    }
    Ok(lack_of_disabled(question, bean))
}

/// Adds a bean, if it is near.
fn add_bean(
    alloc: Global,
    question: &NearQuestion<'_>,
    is_enabled: bool,
    bean: &Bean,
    near: &mut Seq<NearBean>,
) -> Result<(), AllocError>
    ensures { OnOk result (near.new ≡ near.old ++ spec.near_bean question.now.selected.now
        question.now.ty question.now.required.now is_enabled bean.now) }
{
    if !has_type(bean, question.ty) {
        return Ok(());
    }
    if let Some(lack) = lack_of(alloc, question, is_enabled, bean)? {
        let place = place_of(bean);
        near.push(NearBean { place, lack })?;
    }
    Ok(())
}

fn near_in(
    alloc: Global,
    question: &NearQuestion<'_>,
    beans: &[Bean],
    flags: &[bool],
) -> Result<Seq<NearBean>, AllocError>
    ensures { IfOk result (λ near. near ≡ spec.near_in question.now.selected.now
        question.now.ty question.now.required.now beans.now flags.now) }
{
    let mut near = Seq::empty(alloc);
    for (index, bean) in beans.iter().enumerate() {
        add_bean(alloc, question, has_flag(flags, index), bean, &mut near)?;
    }
    Ok(near)
}

/// The beans that nearly have a type and qualifiers as they were written, by the tables of a deployment and the classes that it
/// selects, in the order of their list; none if an enabled bean has these (Jakarta CDI 4.0, *Typesafe resolution*). A bean that is
/// near has the type. If it is enabled (*Enabled and disabled beans*), it lacks some of the qualifiers; if not, it has them all. No
/// qualifiers stand for `Default`.
pub fn near_beans(
    alloc: Global,
    tables: &BeanTables,
    selected: &[Name],
    ty: Name,
    uses: &[Use],
) -> Result<Seq<NearBean>, AllocError>
    ensures { IfOk result (λ near. near ≡ spec.near_beans selected.now ty
        (full_uses tables.now.declared.qualifiers uses.now) tables.now.resolver) }
{
    if !eligible(alloc, tables, ty, uses)?.is_empty() {
        return Ok(Seq::empty(alloc));
    }
    let required = required(alloc, &tables.declared.qualifiers, uses)?;
    let question = NearQuestion {
        selected,
        ty,
        required: required.as_slice(),
    };
    let resolver = &tables.resolver;
    near_in(alloc, &question, resolver.beans(), resolver.flags())
}

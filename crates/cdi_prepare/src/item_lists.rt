//! The lists of the items of a deployment. A check gives nothing if each list is within its limit; else its fault is the first
//! that is longer.
ghost use Rattle.std.specs.Prelude.{◌≡◌, ◌+◌, ℕ, List, length, Option};
ghost use Rattle.cdi_prepare.specs.ItemLists as spec;
ghost use Rattle.cdi_prepare.specs.LongList.{Tells};
ghost use Rattle.cdi_prepare.specs.declared.hint.Mistake.{Mistake as AnyMistake};

use crate::hint::Mistake;
use cdi_base::{Name, OrMemory, Seq, Text, Use};
use cdi_deployment::limits::{
    MAX_ANNOTATION_MEMBERS, MAX_FIELDS, MAX_MEMBERS, MAX_NAMES_LISTED, MAX_PARAMETERS, MAX_USES,
};
use cdi_deployment::{
    AnnotationType, Bean, Class, Constructor, Disposer, Field, InjectedField, Interceptor,
    Interface, Member, Observer, Point, ProducerField, ProducerMethod,
};
use std::alloc::Global;

/// What has lists and stands at a place of a deployment, which is the JSON Pointer (RFC 6901) to it.
pub(crate) trait Item {
    ghost long: { List ℕ → Self → Option AnyMistake };

    /// Checks the lists of the item. An error is [`OrMemory::Memory`] if a growth was refused.
    fn check(&self, alloc: Global, place: &str) -> Result<(), OrMemory<Mistake>>
        ensures { Tells (long place.now self.now) result };
}

/// Checks the list at a key of a place, by its length.
pub(crate) fn check_length(
    alloc: Global,
    place: &str,
    key: &str,
    length: usize,
    limit: usize,
) -> Result<(), OrMemory<Mistake>>
    ensures { Tells (spec.long_list place.now key.now length limit) result }
{
    if length <= limit {
        return Ok(());
    }
    Err(OrMemory::Fault(Mistake::List {
        path: Text::new(format!(in alloc; "{place}/{key}")?),
        length,
        limit,
    }))
}

/// Checks the lists of the items at a key of a place, item by item.
pub(crate) fn check_items<T: Item>(
    alloc: Global,
    place: &str,
    key: &str,
    items: &[T],
) -> Result<(), OrMemory<Mistake>>
    ensures { Tells (spec.first_in T.long place.now key.now 0 items.now) result }
{
    for (index, item) in items.iter().enumerate() {
        let place = format!(in alloc; "{place}/{key}/{index}")?;
        item.check(alloc, place.as_str())?;
    }
    Ok(())
}

fn check_names(
    alloc: Global,
    place: &str,
    key: &str,
    names: &Seq<Name>,
) -> Result<(), OrMemory<Mistake>>
    ensures { Tells (spec.long_names place.now key.now names.now) result }
{
    check_length(alloc, place, key, names.len(), MAX_NAMES_LISTED)
}

fn check_uses(
    alloc: Global,
    place: &str,
    key: &str,
    uses: &Seq<Use>,
) -> Result<(), OrMemory<Mistake>>
    ensures { Tells (spec.long_uses place.now key.now uses.now) result }
{
    check_length(alloc, place, key, uses.len(), MAX_USES)
}

fn check_typed(
    alloc: Global,
    place: &str,
    key: &str,
    typed: &Option<Seq<Name>>,
) -> Result<(), OrMemory<Mistake>>
    ensures { Tells (spec.long_typed place.now key.now typed.now) result }
{
    match typed {
        Some(names) => check_names(alloc, place, key, names),
        None => Ok(()),
    }
}

fn check_bean(alloc: Global, place: &str, bean: &Option<Bean>) -> Result<(), OrMemory<Mistake>>
    ensures { Tells (spec.bean_list place.now bean.now) result }
{
    let Some(bean) = bean else {
        return Ok(());
    };
    check_uses(alloc, place, "bean/quals", &bean.quals)?;
    check_typed(alloc, place, "bean/typed", &bean.typed)?;
    Ok(())
}

fn check_params(
    alloc: Global,
    place: &str,
    key: &str,
    params: &[Point],
) -> Result<(), OrMemory<Mistake>>
    ensures { Tells (spec.params_list place.now key.now params.now) result }
{
    check_length(alloc, place, key, params.len(), MAX_PARAMETERS)?;
    check_items(alloc, place, key, params)?;
    Ok(())
}

fn check_constructor(
    alloc: Global,
    place: &str,
    constructor: &Option<Constructor>,
) -> Result<(), OrMemory<Mistake>>
    ensures { Tells (spec.constructor_list place.now constructor.now) result }
{
    match constructor {
        Some(constructor) => {
            let params = constructor.params.as_slice();
            check_params(alloc, place, "constructor/params", params)
        }
        None => Ok(()),
    }
}

impl Item for Interface {
    ghost long = { spec.interface_list };

    fn check(&self, alloc: Global, place: &str) -> Result<(), OrMemory<Mistake>> {
        check_names(alloc, place, "extends", &self.extends)
    }
}

impl Item for AnnotationType {
    ghost long = { spec.annotation_list };

    fn check(&self, alloc: Global, place: &str) -> Result<(), OrMemory<Mistake>> {
        let limit = MAX_ANNOTATION_MEMBERS;
        check_length(alloc, place, "members", self.members.len(), limit)?;
        check_names(alloc, place, "nonbinding", &self.nonbinding)?;
        Ok(())
    }
}

impl Item for InjectedField {
    ghost long = { spec.injected_list };

    fn check(&self, alloc: Global, place: &str) -> Result<(), OrMemory<Mistake>> {
        check_uses(alloc, place, "quals", &self.quals)
    }
}

impl Item for Point {
    ghost long = { spec.point_list };

    fn check(&self, alloc: Global, place: &str) -> Result<(), OrMemory<Mistake>> {
        check_uses(alloc, place, "quals", &self.quals)
    }
}

fn check_producer(
    alloc: Global,
    place: &str,
    producer: &ProducerMethod,
) -> Result<(), OrMemory<Mistake>>
    ensures { Tells (spec.producer_list place.now producer.now) result }
{
    check_uses(alloc, place, "quals", &producer.quals)?;
    check_typed(alloc, place, "typed", &producer.typed)?;
    check_params(alloc, place, "params", producer.params.as_slice())?;
    check_uses(alloc, place, "bindings", &producer.bindings)?;
    Ok(())
}

fn check_producer_field(
    alloc: Global,
    place: &str,
    producer: &ProducerField,
) -> Result<(), OrMemory<Mistake>>
    ensures { Tells (spec.producer_field_list place.now producer.now) result }
{
    check_uses(alloc, place, "quals", &producer.quals)?;
    check_typed(alloc, place, "typed", &producer.typed)?;
    Ok(())
}

fn check_disposer(alloc: Global, place: &str, disposer: &Disposer) -> Result<(), OrMemory<Mistake>>
    ensures { Tells (spec.disposer_list place.now disposer.now) result }
{
    check_uses(alloc, place, "quals", &disposer.quals)?;
    check_params(alloc, place, "params", disposer.params.as_slice())?;
    check_uses(alloc, place, "bindings", &disposer.bindings)?;
    Ok(())
}

fn check_observer(alloc: Global, place: &str, observer: &Observer) -> Result<(), OrMemory<Mistake>>
    ensures { Tells (spec.observer_list place.now observer.now) result }
{
    check_uses(alloc, place, "quals", &observer.quals)?;
    check_params(alloc, place, "params", observer.params.as_slice())?;
    check_uses(alloc, place, "bindings", &observer.bindings)?;
    Ok(())
}

impl Item for Member {
    ghost long = { spec.member_list };

    fn check(&self, alloc: Global, place: &str) -> Result<(), OrMemory<Mistake>> {
        match self {
            Member::Method(method) => check_uses(alloc, place, "bindings", &method.bindings),
            Member::Initializer(initializer) => {
                check_params(alloc, place, "params", initializer.params.as_slice())
            }
            Member::PostConstruct(_) => Ok(()),
            Member::PreDestroy(_) => Ok(()),
            Member::Producer(producer) => check_producer(alloc, place, producer),
            Member::ProducerField(producer) => check_producer_field(alloc, place, producer),
            Member::Disposer(disposer) => check_disposer(alloc, place, disposer),
            Member::Observer(observer) => check_observer(alloc, place, observer),
        }
    }
}

/// How many fields there are, with which the injected ones count.
fn count_fields(fields: &Seq<Field>, inject: &Seq<InjectedField>) -> usize
    ensures { result ≡ length fields.now + length inject.now }
{
    fields.as_slice().len() + inject.as_slice().len()
}

impl Item for Class {
    ghost long = { spec.class_list };

    fn check(&self, alloc: Global, place: &str) -> Result<(), OrMemory<Mistake>> {
        let fields = count_fields(&self.fields, &self.inject);
        check_length(alloc, place, "fields", fields, MAX_FIELDS)?;
        check_length(alloc, place, "members", self.members.len(), MAX_MEMBERS)?;
        check_names(alloc, place, "implements", &self.implements)?;
        check_uses(alloc, place, "bindings", &self.bindings)?;
        check_bean(alloc, place, &self.bean)?;
        check_items(alloc, place, "inject", self.inject.as_slice())?;
        check_constructor(alloc, place, &self.constructor)?;
        check_items(alloc, place, "members", self.members.as_slice())?;
        Ok(())
    }
}

impl Item for Interceptor {
    ghost long = { spec.interceptor_list };

    fn check(&self, alloc: Global, place: &str) -> Result<(), OrMemory<Mistake>> {
        let fields = count_fields(&self.fields, &self.inject);
        check_length(alloc, place, "fields", fields, MAX_FIELDS)?;
        check_uses(alloc, place, "bindings", &self.bindings)?;
        check_items(alloc, place, "inject", self.inject.as_slice())?;
        Ok(())
    }
}

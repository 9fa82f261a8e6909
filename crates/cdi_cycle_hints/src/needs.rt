//! What dependent beans need.
ghost use Rattle.std.specs.Prelude.{◌≡◌, ◌++◌, IfOk, OnOk};
ghost use Rattle.std.specs.List.{flat_map};
ghost use Rattle.std.specs.Option.{option_copied};
ghost use Rattle.cdi_cycle_hints.specs.Needs as spec;

use cdi_base::{Name, Scope, Seq, Use};
use cdi_beans::{Bean, BeanKind};
use cdi_deployment::{Class, Constructor, Deployment, InjectedField, Member, Point};
use cdi_resolve::{BeanTables, Resolution};
use std::alloc::{AllocError, Global};
use std::marker::Model;

/// Adds what a type and qualifiers resolve to, if that is one bean.
fn add_needed(
    tables: &BeanTables,
    ty: Name,
    quals: &[Use],
    needs: &mut Seq<usize>,
) -> Result<(), AllocError>
    ensures { OnOk result
        (needs.new ≡ needs.old ++ spec.needs_for tables.now ty quals.now) }
{
    let types = &tables.declared.qualifiers;
    match tables.resolver.resolve_written(types, ty, quals) {
        Resolution::One(bean) => {
            needs.push(bean)?;
            Ok(())
        }
        _ => Ok(()),
    }
}

fn add_fields(
    tables: &BeanTables,
    fields: &[InjectedField],
    needs: &mut Seq<usize>,
) -> Result<(), AllocError>
    ensures { OnOk result (needs.new ≡ needs.old ++ spec.fields_needs tables.now fields.now) }
{
    for field in fields {
        add_needed(tables, field.ty, field.quals.as_slice(), needs)?;
    }
    Ok(())
}

fn add_params(
    tables: &BeanTables,
    params: &[Point],
    needs: &mut Seq<usize>,
) -> Result<(), AllocError>
    ensures { OnOk result (needs.new ≡ needs.old ++ spec.points_needs tables.now params.now) }
{
    for point in params {
        add_needed(tables, point.ty, point.quals.as_slice(), needs)?;
    }
    Ok(())
}

fn add_constructor(
    tables: &BeanTables,
    constructor: &Option<Constructor>,
    needs: &mut Seq<usize>,
) -> Result<(), AllocError>
    ensures { OnOk result
        (needs.new ≡ needs.old ++ spec.constructor_needs tables.now constructor.now) }
{
    match constructor {
        Some(constructor) => add_params(tables, constructor.params.as_slice(), needs),
        None => Ok(()),
    }
}

/// Adds what the parameters of a member need, if it is an initializer.
fn add_initializer(
    tables: &BeanTables,
    member: &Member,
    needs: &mut Seq<usize>,
) -> Result<(), AllocError>
    ensures { OnOk result (needs.new ≡ needs.old ++ spec.initializer_needs tables.now member.now) }
{
    match member {
        Member::Initializer(initializer) => {
            add_params(tables, initializer.params.as_slice(), needs)
        }
        _ => Ok(()),
    }
}

fn add_initializers(
    tables: &BeanTables,
    members: &[Member],
    needs: &mut Seq<usize>,
) -> Result<(), AllocError>
    ensures { OnOk result (needs.new
        ≡ needs.old ++ flat_map (spec.initializer_needs tables.now) members.now) }
{
    for member in members {
        add_initializer(tables, member, needs)?;
    }
    Ok(())
}

/// Adds what the points of a class for each instance need, of its own, and not those that it inherits.
fn add_class(tables: &BeanTables, class: &Class, needs: &mut Seq<usize>) -> Result<(), AllocError>
    ensures { OnOk result (needs.new ≡ needs.old ++ spec.class_needs tables.now class.now) }
{
    add_fields(tables, class.inject.as_slice(), needs)?;
    add_constructor(tables, &class.constructor, needs)?;
    add_initializers(tables, class.members.as_slice(), needs)
}

/// Adds what the parameters of the producer with a name need.
fn add_producer(
    tables: &BeanTables,
    name: Name,
    members: &[Member],
    needs: &mut Seq<usize>,
) -> Result<(), AllocError>
    ensures { OnOk result (needs.new
        ≡ needs.old ++ flat_map (spec.named_needs tables.now name) members.now) }
{
    for member in members {
        if member.name() == name {
            add_params(tables, member.params(), needs)?;
        }
    }
    Ok(())
}

fn add_needs_in(
    tables: &BeanTables,
    kind: BeanKind,
    class: &Class,
    needs: &mut Seq<usize>,
) -> Result<(), AllocError>
    ensures { OnOk result (needs.new ≡ needs.old ++ spec.needs_in tables.now kind class.now) }
{
    match kind {
        BeanKind::Managed => add_class(tables, class, needs),
        BeanKind::ProducerMethod(name) => {
            add_producer(tables, name, class.members.as_slice(), needs)
        }
        BeanKind::ProducerField(_) => Ok(()),
    }
}

/// The first class of a name.
fn class_named(classes: &[Class], name: Name) -> Option<&Class>
    ensures { option_copied result ≡ spec.class_named classes.now name }
{
    classes.iter().find(|class| class.name == name)
}

/// The beans that the own points of a bean resolve to.
fn own_needs(
    alloc: Global,
    deployment: &Deployment,
    tables: &BeanTables,
    bean: &Bean,
) -> Result<Seq<usize>, AllocError>
    ensures { IfOk result (λ needs.
        needs ≡ spec.own_needs deployment.now tables.now bean.now) }
{
    let mut needs = Seq::empty(alloc);
    if let Some(class) = class_named(deployment.classes.as_slice(), bean.class) {
        add_needs_in(tables, bean.kind, class, &mut needs)?;
    }
    Ok(needs)
}

/// What an instance of a bean needs of them: all if the bean is dependent, and else none.
fn bean_needs(
    alloc: Global,
    deployment: &Deployment,
    tables: &BeanTables,
    bean: &Bean,
) -> Result<Seq<usize>, AllocError>
    ensures { IfOk result (λ needs.
        needs ≡ spec.bean_needs deployment.now tables.now bean.now) }
{
    match bean.scope {
        Scope::Dependent => own_needs(alloc, deployment, tables, bean),
        _ => Ok(Seq::empty(alloc)),
    }
}

fn rows_of(
    alloc: Global,
    deployment: &Deployment,
    tables: &BeanTables,
) -> Result<Seq<Seq<usize>>, AllocError>
    ensures { IfOk result (λ rows. rows ≡ spec.needs_of deployment.now tables.now) }
{
    let mut rows = Seq::empty(alloc);
    for bean in tables.resolver.beans() {
        rows.push(bean_needs(alloc, deployment, tables, bean)?)?;
    }
    Ok(rows)
}

/// What the dependent beans of a deployment need. Contracts see the row of each bean of its list, which has the indices of others.
#[derive(Drop)]
pub struct Needs {
    rows: Seq<Seq<usize>>,
}

impl Model for Needs {
    ghost use Rattle.std.specs.Prelude.{ℕ, List};

    ghost Value = { List (List ℕ) };

    ghost view = { λ n. n.rows };
}

impl Needs {
    /// The row of each bean.
    pub(crate) fn rows(&self) -> &[Seq<usize>]
        ensures { result.now ≡ self.now }
    {
        self.rows.as_slice()
    }
}

/// What the dependent beans of a deployment need by its tables (Jakarta CDI 4.0, *Dependent pseudo-scope*): the beans that their own
/// points resolve to. Those of a managed bean are the injected fields and the parameters of the constructor and the initializers of
/// its class, without what it inherits; those of a product are the parameters of its producer. The one error is [`AllocError`], if a
/// growth was refused.
pub fn needs_of(
    alloc: Global,
    deployment: &Deployment,
    tables: &BeanTables,
) -> Result<Needs, AllocError>
    ensures { IfOk result (λ needs. needs ≡ spec.needs_of deployment.now tables.now) }
{
    let rows = rows_of(alloc, deployment, tables)?;
    Ok(Needs { rows })
}

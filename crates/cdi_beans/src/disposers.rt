//! The disposers of beans, with the producers that they serve.
ghost use Rattle.std.specs.Prelude.{◌≡◌, [], ◌∷◌, filter, IfOk, OnOk};
ghost use Rattle.std.specs.List.{flat_map, filter_map, AllZip};
ghost use Rattle.cdi_types.specs.Declarations.{declarations_of};
ghost use Rattle.cdi_bean_check.specs.ManagedBeans.{is_bean};
ghost use Rattle.cdi_beans.specs.Adds.{Adds};
ghost use Rattle.cdi_beans.specs.DisposerMethods as spec;

use crate::bean::DisposerMethod;
use crate::tables::Tables;
use cdi_base::{Name, Seq};
use cdi_bean_rules::serves;
use cdi_deployment::{Class, Disposer, Member};
use std::alloc::{AllocError, Global};

/// The names of those members that a disposer serves.
fn served(
    alloc: Global,
    tables: &Tables<'_>,
    disposer: &Disposer,
    members: &[Member],
) -> Result<Seq<Name>, AllocError>
    ensures { IfOk result (λ names. spec.AreServed (declarations_of tables.now.deployment.now)
        tables.now.qualifiers.now disposer.now members.now names) }
{
    let mut names = Seq::empty(alloc);
    for member in members {
        if serves(tables.types, tables.qualifiers, disposer, member) {
            names.push(member.name())?;
        }
    }
    Ok(names)
}

fn disposer_method(
    alloc: Global,
    tables: &Tables<'_>,
    class: &Class,
    disposer: &Disposer,
) -> Result<DisposerMethod, AllocError>
    ensures { IfOk result (λ method. spec.IsDisposerOf tables.now.deployment.now
        tables.now.qualifiers.now (class.now, disposer.now) method) }
{
    Ok(DisposerMethod {
        class: class.name,
        name: disposer.name,
        serves: served(alloc, tables, disposer, class.members.as_slice())?,
    })
}

/// Adds a member of a class, if it is a disposer.
fn add_disposer(
    alloc: Global,
    tables: &Tables<'_>,
    class: &Class,
    member: &Member,
    disposers: &mut Seq<DisposerMethod>,
) -> Result<(), AllocError>
    ensures { OnOk result
        (Adds (spec.IsDisposerOf tables.now.deployment.now tables.now.qualifiers.now)
        (filter_map (spec.disposer class.now) (member.now ∷ []))
        disposers.old disposers.new) }
{
    match member {
        Member::Disposer(disposer) => {
            disposers.push(disposer_method(alloc, tables, class, disposer)?)?;
            Ok(())
        }
        _ => Ok(()),
    }
}

/// Adds the disposers of a class.
fn add_disposers(
    alloc: Global,
    tables: &Tables<'_>,
    class: &Class,
    disposers: &mut Seq<DisposerMethod>,
) -> Result<(), AllocError>
    ensures { OnOk result
        (Adds (spec.IsDisposerOf tables.now.deployment.now tables.now.qualifiers.now)
        (spec.disposers_in class.now) disposers.old disposers.new) }
{
    for member in class.members.as_slice() {
        add_disposer(alloc, tables, class, member, disposers)?;
    }
    Ok(())
}

/// The disposers of the managed beans of a deployment, each of its own class.
pub(crate) fn disposers_of(
    alloc: Global,
    tables: &Tables<'_>,
) -> Result<Seq<DisposerMethod>, AllocError>
    ensures { IfOk result (λ disposers.
        AllZip (spec.IsDisposerOf tables.now.deployment.now tables.now.qualifiers.now)
        (flat_map spec.disposers_in (filter is_bean tables.now.deployment.now.classes))
        disposers) }
{
    let mut disposers = Seq::empty(alloc);
    for class in tables.deployment.classes.as_slice() {
        if class.bean.is_some() {
            add_disposers(alloc, tables, class, &mut disposers)?;
        }
    }
    Ok(disposers)
}

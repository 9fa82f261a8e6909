//! Sets of what is live.
ghost use Rattle.std.specs.Prelude.{◌≡◌, ◌||◌, ◌↔◌, ℕ, IsTrue, IfOk, OnOk};
ghost use Rattle.std.specs.HashSet.{contains};
ghost use Rattle.std.specs.List.{Any};
ghost use Rattle.cdi_live.specs.Live as spec;
ghost use Rattle.cdi_live.specs.LiveSets.{HasThose, AreLive};
ghost use Rattle.cdi_live.specs.MemberSets.{HasLast};
ghost use Rattle.cdi_name_check.specs.NameSets.{HasNames, HasPairs, same_pair};
ghost use Rattle.cdi_types.specs.NameSet.{has as has_name};

use crate::member_set::{LastClasses, add_member};
use cdi_base::Name;
use cdi_beans::EnabledInterceptor;
use cdi_deployment::Class;
use cdi_resolve::EnabledBean;
use cdi_types::{NameSet, TypeTable};
use std::alloc::{AllocError, Global};
use std::collections::HashSet;

/// What is live, by its names.
#[derive(Drop)]
pub(crate) struct LiveSets {
    /// The classes of enabled managed beans.
    pub(crate) classes: HashSet<Name>,
    /// The members of enabled beans, by the classes that declare them and their names.
    pub(crate) members: HashSet<(Name, Name)>,
    /// The classes of enabled managed beans, and the classes above them.
    pub(crate) with_fields: HashSet<Name>,
    /// The enabled interceptors.
    pub(crate) interceptors: HashSet<Name>,
}

/// The classes of managed beans.
fn classes_of(alloc: Global, enabled: &[EnabledBean<'_>]) -> Result<HashSet<Name>, AllocError>
    ensures { IfOk result (HasNames (spec.is_live_class enabled.now)) }
{
    let mut set = HashSet::new(alloc);
    for bean in enabled {
        if bean.is_managed() {
            set.insert(bean.class())?;
        }
    }
    Ok(set)
}

/// Adds the members of a bean.
fn add_members(
    bean: &EnabledBean<'_>,
    set: &mut HashSet<(Name, Name)>,
    last: &mut LastClasses,
) -> Result<(), AllocError>
    requires { HasLast set.old last.old }
    ensures set { OnOk result ((class name : ℕ) → contains same_pair set.new (class, name)
        ≡ (contains same_pair set.old (class, name) || spec.has_member class name bean.now)) }
    ensures last { OnOk result (HasLast set.new last.new) }
{
    for member in bean.members() {
        add_member(member, set, last)?;
    }
    Ok(())
}

/// The members of beans.
fn members_of(
    alloc: Global,
    enabled: &[EnabledBean<'_>],
) -> Result<HashSet<(Name, Name)>, AllocError>
    ensures { IfOk result (HasPairs (spec.is_live_member enabled.now)) }
{
    let mut set = HashSet::new(alloc);
    let mut last = LastClasses::none(alloc);
    for bean in enabled {
        add_members(bean, &mut set, &mut last)?;
    }
    Ok(set)
}

/// The classes of managed beans, and all types above them.
fn types_of_beans(
    alloc: Global,
    types: &TypeTable,
    enabled: &[EnabledBean<'_>],
) -> Result<NameSet, AllocError>
    ensures { IfOk result (λ names. (class : ℕ) → IsTrue (has_name names class)
        ↔ Any (spec.IsBeanBelow types.now class) enabled.now) }
{
    let mut names = NameSet::new(alloc);
    for bean in enabled {
        if bean.is_managed() {
            types.add_types_of(alloc, bean.class(), &mut names)?;
        }
    }
    Ok(names)
}

/// Those of some classes that are of managed beans, or above these.
fn classes_with_fields(
    alloc: Global,
    types: &TypeTable,
    classes: &[Class],
    enabled: &[EnabledBean<'_>],
) -> Result<HashSet<Name>, AllocError>
    ensures { IfOk result (HasThose (spec.HasFieldsOf classes.now types.now enabled.now)) }
{
    let above = types_of_beans(alloc, types, enabled)?;
    let mut set = HashSet::new(alloc);
    for class in classes {
        if above.contains(class.name) {
            set.insert(class.name)?;
        }
    }
    Ok(set)
}

fn names_of(alloc: Global, interceptors: &[EnabledInterceptor]) -> Result<HashSet<Name>, AllocError>
    ensures { IfOk result (HasNames (spec.is_live_interceptor interceptors.now)) }
{
    let mut set = HashSet::new(alloc);
    for interceptor in interceptors {
        set.insert(interceptor.name)?;
    }
    Ok(set)
}

impl LiveSets {
    /// What is live by these beans and interceptors.
    pub(crate) fn of(
        alloc: Global,
        types: &TypeTable,
        classes: &[Class],
        enabled: &[EnabledBean<'_>],
        interceptors: &[EnabledInterceptor],
    ) -> Result<LiveSets, AllocError>
        ensures { IfOk result (AreLive (record {
          classes = classes.now;
          types = types.now;
          beans = enabled.now;
          interceptors = interceptors.now;
        })) }
    {
        Ok(LiveSets {
            classes: classes_of(alloc, enabled)?,
            members: members_of(alloc, enabled)?,
            with_fields: classes_with_fields(alloc, types, classes, enabled)?,
            interceptors: names_of(alloc, interceptors)?,
        })
    }
}

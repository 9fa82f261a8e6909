//! What a class declares, in the words of an instance's life.
ghost use Rattle.std.specs.Prelude.{◌≡◌, ◌≤◌, ◌^◌, ℕ, length, map, option_map, IfOk};
ghost use Rattle.cdi_base.specs.Maps.{at};
ghost use Rattle.cdi_bean_lives.specs.Lives as spec;
ghost use Rattle.cdi_deployment.specs.Member.{member_name};
ghost use Rattle.cdi_event_tables.specs.Ids.{id_in};
ghost use Rattle.cdi_numbered_plans.specs.Numbered as numbered;

use cdi_base::{Name, Seq};
use cdi_cache::Lookup;
use cdi_class_lives::OwnLife;
use cdi_deployment::{Class, Member};
use cdi_event_tables::BodyIds;
use cdi_method_maps::NamedMethod;
use cdi_numbered_plans::{Numbering, codes_of, named_methods, steps_of};
use cdi_planner::Planner;
use cdi_resolve::Resolver;
use std::alloc::{AllocError, Global};
use std::mem;

/// The names of these members.
fn names_of(alloc: Global, members: &[Member]) -> Result<Seq<Name>, AllocError>
    ensures { IfOk result (λ names. names ≡ map member_name members.now) }
{
    let mut names = Seq::empty(alloc);
    for member in members {
        names.push(member.name())?;
    }
    Ok(names)
}

/// All business methods that a bean has, which is told by its class.
fn all_methods(
    alloc: Global,
    planner: &Planner<'_>,
    ids: &BodyIds,
    class: Name,
) -> Result<Seq<NamedMethod>, AllocError>
    requires { length planner.now.chains.interceptors ≤ 2 ^ 32 }
    ensures { IfOk result (spec.AreAllMethods planner.now (id_in ids.now) class) }
{
    let methods = planner.methods(alloc, class)?;
    named_methods(alloc, ids, methods.as_slice())
}

/// What a class declares, in the words of an instance's life. If it doesn't inherit the methods of its direct superclass, its methods are
/// all that its bean has.
pub(crate) fn own_life(
    alloc: Global,
    planner: &Planner<'_>,
    numbering: &Numbering<'_>,
    lookup: &mut Lookup<&Resolver>,
    class: &Class,
    inherits_methods: bool,
) -> Result<OwnLife, AllocError>
    requires asks { numbered.AsksNumbered numbering.now lookup.old.now }
    requires few { length planner.now.chains.interceptors ≤ 2 ^ 32 }
    ensures own { IfOk result
        (spec.IsOwnLife planner.now numbering.now class.now inherits_methods) }
    ensures kept { numbered.AsksNumbered numbering.now lookup.new.now }
{
    let mut parts = planner.own_parts(alloc, class)?;
    let ids = numbering.ids();
    let methods = if inherits_methods {
        named_methods(alloc, ids, parts.methods.as_slice())?
    } else {
        all_methods(alloc, planner, ids, class.name)?
    };
    Ok(OwnLife {
        class: class.name,
        declared: names_of(alloc, class.members.as_slice())?,
        fields: mem::replace(&mut parts.fields, Seq::empty(alloc)),
        injections: steps_of(alloc, numbering, lookup, parts.injections.as_slice())?,
        post_constructs: codes_of(alloc, ids, parts.post_constructs.as_slice())?,
        pre_destroys: codes_of(alloc, ids, parts.pre_destroys.as_slice())?,
        methods,
    })
}

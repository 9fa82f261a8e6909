//! The bodies of what a bean has, with the chains of interceptors round them.
ghost use Rattle.std.specs.Prelude.{◌≡◌, ◌++◌, ◌∷◌, [], IfOk, OnOk};
ghost use Rattle.std.specs.List.{filter_map};
ghost use Rattle.cdi_base.specs.declared.place.Place.TheVariants as places;
ghost use Rattle.cdi_planner.specs.Codes as spec;
ghost use Rattle.cdi_plans.specs.Chains.{plain_chain};

use crate::copies::copy_points;
use cdi_base::{InterceptorMethod, Name, Place, Seq};
use cdi_beans::BeanMember;
use cdi_deployment::{Class, Member, Point};
use cdi_plans::Chains;
use cdi_plans::plan::{BusinessMethod, Code, InjectedMethod, Lifecycle};
use cdi_types::ClassPart;
use std::alloc::{AllocError, Global};

fn member_place(class: &Class, name: Name) -> Place
    ensures { result ≡ places.Member class.now.name name }
{
    Place::Member {
        class: class.name,
        member: name,
    }
}

/// The body of a member of this name, which the class declares.
pub(crate) fn member_code(class: &Class, name: Name, body: Name) -> Code
    ensures { result ≡ spec.member_code class.now name body }
{
    Code {
        place: member_place(class, name),
        body,
    }
}

/// The chain of a member of this name of a bean, which the class declares.
fn member_chain(
    alloc: Global,
    chains: &Chains,
    bean: Name,
    class: &Class,
    name: Name,
) -> Result<Seq<usize>, AllocError>
    ensures { IfOk result (λ chain. chain ≡ spec.member_chain chains.now bean class.now name) }
{
    let member = BeanMember {
        class: class.name,
        name,
    };
    chains.invoke_chain(bean, member).places(alloc)
}

/// The chain of a bean for a method of interceptors, with these callbacks at its end.
pub(crate) fn lifecycle(
    alloc: Global,
    chains: &Chains,
    bean: Name,
    method: InterceptorMethod,
    callbacks: Seq<Code>,
) -> Result<Lifecycle, AllocError>
    ensures { IfOk result (λ life. life ≡ spec.lifecycle chains.now bean method callbacks) }
{
    Ok(Lifecycle {
        chain: chains.life_chain(bean, method).places(alloc)?,
        callbacks,
    })
}

/// Adds the body of a member, if it is a post-construct callback.
fn add_post_construct(
    member: &ClassPart<'_, Member>,
    callbacks: &mut Seq<Code>,
) -> Result<(), AllocError>
    ensures { OnOk result (callbacks.new
        ≡ callbacks.old ++ filter_map spec.post_construct (member.now ∷ [])) }
{
    match member.part {
        Member::PostConstruct(callback) => {
            let place = member_place(member.class, callback.name);
            let body = callback.body;
            callbacks.push(Code { place, body })?;
            Ok(())
        }
        _ => Ok(()),
    }
}

/// Adds the body of a member, if it is a pre-destroy callback.
fn add_pre_destroy(
    member: &ClassPart<'_, Member>,
    callbacks: &mut Seq<Code>,
) -> Result<(), AllocError>
    ensures { OnOk result (callbacks.new
        ≡ callbacks.old ++ filter_map spec.pre_destroy (member.now ∷ [])) }
{
    match member.part {
        Member::PreDestroy(callback) => {
            let place = member_place(member.class, callback.name);
            let body = callback.body;
            callbacks.push(Code { place, body })?;
            Ok(())
        }
        _ => Ok(()),
    }
}

/// The post-construct callbacks among the members of a bean.
pub(crate) fn post_constructs(
    alloc: Global,
    members: &[ClassPart<'_, Member>],
) -> Result<Seq<Code>, AllocError>
    ensures { IfOk result (λ callbacks. callbacks ≡ filter_map spec.post_construct members.now) }
{
    let mut callbacks = Seq::empty(alloc);
    for member in members {
        add_post_construct(member, &mut callbacks)?;
    }
    Ok(callbacks)
}

/// The pre-destroy callbacks among the members of a bean.
pub(crate) fn pre_destroys(
    alloc: Global,
    members: &[ClassPart<'_, Member>],
) -> Result<Seq<Code>, AllocError>
    ensures { IfOk result (λ callbacks. callbacks ≡ filter_map spec.pre_destroy members.now) }
{
    let mut callbacks = Seq::empty(alloc);
    for member in members {
        add_pre_destroy(member, &mut callbacks)?;
    }
    Ok(callbacks)
}

/// The chain of a business method of this name of a bean, which the class declares, by that of the methods without bindings of their own.
fn method_chain(
    alloc: Global,
    chains: &Chains,
    bean: Name,
    plain: &[usize],
    class: &Class,
    name: Name,
) -> Result<Seq<usize>, AllocError>
    requires { plain.now ≡ plain_chain chains.now bean }
    ensures { IfOk result (λ chain. chain ≡ spec.member_chain chains.now bean class.now name) }
{
    let member = BeanMember {
        class: class.name,
        name,
    };
    if chains.is_plain(member) {
        return Ok(Seq::new(Vec::from_slice(alloc, plain)?));
    }
    member_chain(alloc, chains, bean, class, name)
}

/// Adds a member of a bean, if it is a business method.
fn add_method(
    alloc: Global,
    chains: &Chains,
    bean: Name,
    plain: &[usize],
    member: &ClassPart<'_, Member>,
    methods: &mut Seq<BusinessMethod>,
) -> Result<(), AllocError>
    requires { plain.now ≡ plain_chain chains.now bean }
    ensures { OnOk result (methods.new
        ≡ methods.old ++ filter_map (spec.business_method chains.now bean) (member.now ∷ [])) }
{
    match member.part {
        Member::Method(method) => {
            methods.push(BusinessMethod {
                name: method.name,
                code: member_code(member.class, method.name, method.body),
                count: method.args,
                chain: method_chain(alloc, chains, bean, plain, member.class, method.name)?,
            })?;
            Ok(())
        }
        _ => Ok(()),
    }
}

/// The business methods among the members of a bean.
pub(crate) fn business_methods(
    alloc: Global,
    chains: &Chains,
    bean: Name,
    members: &[ClassPart<'_, Member>],
) -> Result<Seq<BusinessMethod>, AllocError>
    ensures { IfOk result
        (λ methods. methods ≡ filter_map (spec.business_method chains.now bean) members.now) }
{
    let plain = chains.plain_chain(bean).places(alloc)?;
    let mut methods = Seq::empty(alloc);
    for member in members {
        add_method(alloc, chains, bean, plain.as_slice(), member, &mut methods)?;
    }
    Ok(methods)
}

/// A producer method, a disposer or an observer of a bean, which the class declares by this name, with this body and these parameters.
pub(crate) fn injected_method(
    alloc: Global,
    chains: &Chains,
    bean: Name,
    class: &Class,
    name: Name,
    body: Name,
    params: &[Point],
) -> Result<InjectedMethod, AllocError>
    ensures { IfOk result (λ method. method
        ≡ spec.injected_method chains.now bean class.now name body params.now) }
{
    Ok(InjectedMethod {
        code: member_code(class, name, body),
        points: copy_points(alloc, params)?,
        chain: member_chain(alloc, chains, bean, class, name)?,
    })
}

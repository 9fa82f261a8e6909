//! The steps by which an instance of a managed bean is created (Jakarta CDI 4.0, *Lifecycle of managed beans*).
ghost use Rattle.std.specs.Prelude.{◌≡◌, ◌++◌, ◌∷◌, [], map, IfOk, OnOk};
ghost use Rattle.std.specs.List.{filter_map};
ghost use Rattle.std.specs.Option.{option_copied};
ghost use Rattle.cdi_planner.specs.Codes.{constructor_body as body_of};
ghost use Rattle.cdi_planner.specs.Steps as spec;
ghost use Rattle.cdi_plans.specs.declared.plan.Step.TheVariants as steps_are;

use crate::codes::{lifecycle, member_code};
use crate::copies::{copy_points, point_of};
use cdi_base::{InterceptorMethod, Name, Place, Seq};
use cdi_beans::Bean;
use cdi_deployment::{Constructor, InjectedField, Member};
use cdi_plans::Chains;
use cdi_plans::plan::{Code, Step};
use cdi_types::ClassPart;
use std::alloc::{AllocError, Global};

/// Adds a step for each of these interceptors.
fn add_interceptors(places: &[usize], steps: &mut Seq<Step>) -> Result<(), AllocError>
    ensures { OnOk result (steps.new ≡ steps.old ++ map steps_are.Intercept places.now) }
{
    for place in places {
        steps.push(Step::Intercept(*place))?;
    }
    Ok(())
}

/// The body of the constructor of a class, if it has one.
fn constructor_body(alloc: Global, class: Name, body: Option<Name>) -> Result<Seq<Code>, AllocError>
    ensures { IfOk result (λ codes. codes ≡ body_of class body) }
{
    let mut codes = Seq::empty(alloc);
    if let Some(body) = body {
        codes.push(Code {
            place: Place::Constructor(class),
            body,
        })?;
    }
    Ok(codes)
}

/// The construction of an instance of a bean by the constructor of its class, if that declares one.
fn construction(
    alloc: Global,
    chains: &Chains,
    bean: Name,
    constructor: Option<&Constructor>,
) -> Result<Step, AllocError>
    ensures { IfOk result
        (λ step. step ≡ spec.construction chains.now bean (option_copied constructor.entry)) }
{
    let method = InterceptorMethod::AroundConstruct;
    match constructor {
        Some(constructor) => {
            let body = constructor_body(alloc, bean, constructor.body)?;
            Ok(Step::Construct {
                points: copy_points(alloc, constructor.params.as_slice())?,
                lifecycle: lifecycle(alloc, chains, bean, method, body)?,
            })
        }
        None => Ok(Step::Construct {
            points: Seq::empty(alloc),
            lifecycle: lifecycle(alloc, chains, bean, method, Seq::empty(alloc))?,
        }),
    }
}

/// Adds a step for each of these injected fields.
pub(crate) fn add_injected_fields(
    alloc: Global,
    fields: &[InjectedField],
    steps: &mut Seq<Step>,
) -> Result<(), AllocError>
    ensures { OnOk result (steps.new ≡ steps.old ++ map spec.injection fields.now) }
{
    for field in fields {
        steps.push(Step::Inject {
            field: field.name,
            point: point_of(alloc, field.ty, field.quals.as_slice())?,
        })?;
    }
    Ok(())
}

/// Adds a step for a member, if it is an initializer.
fn add_initializer(
    alloc: Global,
    member: &ClassPart<'_, Member>,
    steps: &mut Seq<Step>,
) -> Result<(), AllocError>
    ensures { OnOk result
        (steps.new ≡ steps.old ++ filter_map spec.initialization (member.now ∷ [])) }
{
    match member.part {
        Member::Initializer(initializer) => {
            steps.push(Step::Initialize {
                code: member_code(member.class, initializer.name, initializer.body),
                points: copy_points(alloc, initializer.params.as_slice())?,
            })?;
            Ok(())
        }
        _ => Ok(()),
    }
}

/// Adds a step for each of these members that is an initializer.
pub(crate) fn add_initializers(
    alloc: Global,
    members: &[ClassPart<'_, Member>],
    steps: &mut Seq<Step>,
) -> Result<(), AllocError>
    ensures { OnOk result (steps.new ≡ steps.old ++ filter_map spec.initialization members.now) }
{
    for member in members {
        add_initializer(alloc, member, steps)?;
    }
    Ok(())
}

/// The steps up to the construction of an instance of a bean, by the constructor of its class: an instance of each interceptor in its
/// chains, and the constructor.
pub(crate) fn first_steps(
    alloc: Global,
    chains: &Chains,
    constructor: Option<&Constructor>,
    bean: &Bean,
) -> Result<Seq<Step>, AllocError>
    ensures { IfOk result (λ steps. steps
        ≡ spec.first_steps chains.now (option_copied constructor.entry) bean.now) }
{
    let interceptors = chains.interceptors_of(alloc, bean)?;
    let construct = construction(alloc, chains, bean.class, constructor)?;
    let mut steps = Seq::empty(alloc);
    add_interceptors(interceptors.as_slice(), &mut steps)?;
    steps.push(construct)?;
    Ok(steps)
}

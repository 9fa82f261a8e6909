//! Where a live injection point has a problem.
ghost use Rattle.std.specs.Prelude.{◌≡◌, ◌↔◌, [], ◌∷◌, IsTrue};
ghost use Rattle.std.specs.List.{Any};
ghost use Rattle.std.specs.Option.{option_copied};
ghost use Rattle.cdi_live.specs.PointProblems as spec;
ghost use Rattle.cdi_live.specs.Points.{field_point};

use crate::deployment_tables::DeploymentTables;
use crate::point_problem::PointProblem;
use cdi_base::{Name, Scope, Use};
use cdi_beans::Bean;
use cdi_deployment::{Class, InjectedField, Point};
use cdi_problems::{Element, Rule};
use cdi_resolve::Resolution;

/// A live injection point has a problem. It stands at the injected field, or at the constructor or the member that has the parameter.
#[derive(Clone, Copy)]
pub struct PointRule<'a> {
    pub problem: PointProblem,
    pub tables: &'a DeploymentTables<'a>,
}

fn is_final(class: Option<&Class>) -> bool
    ensures { result ≡ spec.is_final (option_copied class.entry) }
{
    match class {
        Some(class) => class.is_final,
        None => false,
    }
}

/// Whether a bean is one that a client proxy stands for (Jakarta CDI 4.0, *Normal scopes and pseudo-scopes*).
fn is_normal(bean: Option<&Bean>) -> bool
    ensures { result ≡ spec.is_normal (option_copied bean.entry) }
{
    match bean {
        Some(bean) => !matches!(bean.scope, Scope::Dependent),
        None => false,
    }
}

/// Whether a final class is asked for, and it resolves to a bean of a normal scope.
fn asks_for_proxy(tables: &DeploymentTables<'_>, ty: Name, quals: &[Use]) -> bool
    ensures { IsTrue result
        ↔ spec.AsksForProxy tables.now.beans.now.declared.qualifiers tables.now.live.now
        (record { ty = ty; quals = quals.now }) }
{
    if !is_final(tables.classes.class(ty)) {
        return false;
    }
    match tables.resolve(ty, quals) {
        Resolution::One(bean) => is_normal(tables.beans.resolver.bean(bean)),
        _ => false,
    }
}

/// Whether what asks for a type and qualifiers has a problem.
fn has_problem(
    tables: &DeploymentTables<'_>,
    problem: PointProblem,
    ty: Name,
    quals: &[Use],
) -> bool
    ensures { IsTrue result
        ↔ spec.HasProblem problem tables.now.beans.now.declared.qualifiers tables.now.live.now
        (record { ty = ty; quals = quals.now }) }
{
    match problem {
        PointProblem::Unsatisfied => matches!(tables.resolve(ty, quals), Resolution::Nothing),
        PointProblem::Ambiguous => matches!(tables.resolve(ty, quals), Resolution::Many),
        PointProblem::Unproxyable => asks_for_proxy(tables, ty, quals),
    }
}

impl PointRule<'_> {
    /// Whether an injected field has the problem.
    fn has_problem_at(&self, field: &InjectedField) -> bool
        ensures { IsTrue result ↔ Any
            (spec.HasProblem self.now.problem self.now.tables.now.beans.now.declared.qualifiers
            self.now.tables.now.live.now)
            (field_point field.now ∷ []) }
    {
        has_problem(self.tables, self.problem, field.ty, field.quals.as_slice())
    }

    /// Whether one of some parameters has the problem.
    fn has_problem_among(&self, points: &[Point]) -> bool
        ensures { IsTrue result ↔ Any
            (spec.HasProblem self.now.problem self.now.tables.now.beans.now.declared.qualifiers
            self.now.tables.now.live.now)
            points.now }
    {
        let tables = self.tables;
        let problem = self.problem;
        points.iter().any(|point| has_problem(tables, problem, point.ty, point.quals.as_slice()))
    }
}

impl Rule for PointRule<'_> {
    ghost use Rattle.cdi_live.specs.PointProblems.{HasPointProblem};

    ghost holds_at = { λ rule e. HasPointProblem rule.problem
        rule.tables.now.beans.now.declared.qualifiers rule.tables.now.live.now e };

    fn holds(&self, element: &Element<'_>) -> bool {
        let live = self.tables.live;
        match element {
            Element::InjectedField { class, field, .. } => {
                live.has_fields_of(class.name) && self.has_problem_at(field)
            }
            Element::Constructor {
                class,
                constructor,
                ..
            } => live.has_bean(class.name) && self.has_problem_among(constructor.params.as_slice()),
            Element::Member { class, member, .. } => {
                live.has_member(class.name, member.name())
                    && self.has_problem_among(member.params())
            }
            Element::InterceptorInjectedField {
                interceptor,
                field,
                ..
            } => live.has_interceptor(interceptor.name) && self.has_problem_at(field),
            _ => false,
        }
    }
}

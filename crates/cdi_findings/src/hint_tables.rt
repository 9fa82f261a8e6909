//! What is looked up of a deployment for what is told of its problems, made once.
ghost use Rattle.std.specs.Prelude.{◌≡◌, IfOk};
ghost use Rattle.std.specs.List.{list_any};
ghost use Rattle.std.specs.Option.{option_copied};
ghost use Rattle.cdi_findings.specs.Tables as spec;
ghost use Rattle.cdi_problem_hints.specs.Subjects.{subject_of};
ghost use Rattle.cdi_cycle_hints.specs.Needs.{AreNeedsOf};

use cdi_candidates::tables_of;
use cdi_cycle_hints::{Needs, needs_of};
use cdi_deployment::Deployment;
use cdi_name_uses::ScriptNames;
use cdi_place_index::PlaceIndex;
use cdi_problem_hints::Subject;
use cdi_problems::{Problem, ProblemKind};
use cdi_resolve::BeanTables;
use std::alloc::{AllocError, Global};

/// Whether the tables tell something of a problem of a kind.
fn needs_tables(kind: ProblemKind) -> bool
    ensures { result ≡ spec.kind_needs_tables kind }
{
    match kind {
        ProblemKind::Unsatisfied
        | ProblemKind::Ambiguous
        | ProblemKind::InconsistentSpecialization
        | ProblemKind::DependentCycle => true,
        _ => false,
    }
}

fn is_one_needing_tables(problems: &[Problem]) -> bool
    ensures { result ≡ list_any spec.needs_tables problems.now }
{
    problems.iter().any(|problem| needs_tables(problem.kind))
}

/// The tables by which the points of a deployment resolve, if one of these problems needs them.
fn tables_for(
    alloc: Global,
    deployment: &Deployment,
    problems: &[Problem],
) -> Result<Option<BeanTables>, AllocError>
    ensures { IfOk result (spec.AreTablesFor deployment.now problems.now) }
{
    if !is_one_needing_tables(problems) {
        return Ok(None);
    }
    tables_of(alloc, deployment)
}

fn is_one_dependent_cycle(problems: &[Problem]) -> bool
    ensures { result ≡ list_any spec.is_dependent_cycle problems.now }
{
    problems
        .iter()
        .any(|problem| problem.kind == ProblemKind::DependentCycle)
}

/// What the dependent beans of a deployment need by these tables, if it is told of one of these problems.
fn needs_for(
    alloc: Global,
    deployment: &Deployment,
    tables: Option<&BeanTables>,
    problems: &[Problem],
) -> Result<Option<Needs>, AllocError>
    ensures { IfOk result (AreNeedsOf deployment.now (option_copied tables.entry)) }
{
    match tables {
        Some(tables) if is_one_dependent_cycle(problems) => {
            Ok(Some(needs_of(alloc, deployment, tables)?))
        }
        _ => Ok(None),
    }
}

/// What is looked up of a deployment for what is told of its problems.
#[derive(Drop)]
pub struct HintTables<'a> {
    pub deployment: &'a Deployment,
    /// The tables by which its points resolve, if one of the problems needs them.
    pub tables: Option<BeanTables>,
    needs: Option<Needs>,
    index: PlaceIndex<'a>,
    ghost are_needs: { AreNeedsOf deployment.now tables needs },
    ghost is_index: { index.deployment.now ≡ deployment.now },
}

impl<'a> HintTables<'a> {
    /// What these problems of a deployment need: the tables if one of them tells what a point is left with, and what dependent beans
    /// need if it is told of one of them. The one error is [`AllocError`], if a growth was refused.
    pub fn build(
        alloc: Global,
        deployment: &'a Deployment,
        problems: &[Problem],
    ) -> Result<HintTables<'a>, AllocError>
        ensures deployment { IfOk result (λ t. t.deployment.now ≡ deployment.now) }
        ensures tables { IfOk result
            (λ t. spec.AreTablesFor deployment.now problems.now t.tables) }
    {
        let tables = tables_for(alloc, deployment, problems)?;
        let needs = needs_for(alloc, deployment, tables.as_ref(), problems)?;
        let index = PlaceIndex::of(alloc, deployment)?;
        Ok(HintTables {
            deployment,
            tables,
            needs,
            index,
        })
    }

    /// What hints are about, with the names that the scripts of the deployment use.
    pub fn subject<'b>(&'b self, scripts: &'b [ScriptNames]) -> Subject<'b>
        ensures { subject_of result ≡ record {
          deployment = self.now.deployment.now;
          scripts = scripts.now;
          tables = self.now.tables;
        } }
    {
        Subject {
            deployment: self.deployment,
            scripts,
            tables: self.tables.as_ref(),
            needs: self.needs.as_ref(),
            index: &self.index,
        }
    }
}

//! The bean list of a deployment, or its problems.
ghost use Rattle.std.specs.Prelude.{◌≡◌, [], IfOk, IfErr};
ghost use Rattle.cdi_beans.specs.Declarations.{AreDeclaredBy};
ghost use Rattle.cdi_beans.specs.Problems.{IsMadeOf, IsRefusedWith};
ghost use Rattle.cdi_name_check.specs.NameProblems.{AreNameProblems};
ghost use Rattle.cdi_name_check.specs.NameSets.{HasDeclared};
ghost use Rattle.cdi_problems.specs.Elements.{elements_of as all_elements, shown};

use crate::declared::DeclaredTables;
use crate::list::list_beans;
use crate::listed::ListedBeans;
use cdi_base::{OrMemory, Seq};
use cdi_bean_check::BeanClasses;
use cdi_bean_rules::{RuleTables, bean_problems};
use cdi_deployment::Deployment;
use cdi_name_check::{NameSets, name_problems};
use cdi_problems::{Element, Problem, elements_of};
use cdi_types::ClassIndex;
use std::alloc::Global;

/// The bean list of a deployment whose names, which are these, have no problem, or the problems of its beans.
fn list_named(
    alloc: Global,
    deployment: &Deployment,
    names: NameSets,
    elements: &[Element<'_>],
) -> Result<ListedBeans, OrMemory<Seq<Problem>>>
    requires well { AreNameProblems deployment.now [] }
    requires names { HasDeclared deployment.now names }
    requires elements { shown elements.now ≡ all_elements deployment.now }
    ensures list { IfOk result (λ beans. IsMadeOf deployment.now beans.list) }
    ensures declared { IfOk result (λ beans. AreDeclaredBy deployment.now beans.declared) }
    ensures names { IfOk result (λ beans. HasDeclared deployment.now beans.names) }
    ensures refused { IfErr result (IsRefusedWith deployment.now) }
{
    let declared = DeclaredTables::build(alloc, deployment)?;
    let classes = ClassIndex::build(alloc, deployment.classes.as_slice())?;
    let beans = BeanClasses::build(alloc, deployment.classes.as_slice())?;
    let tables = RuleTables {
        deployment,
        elements,
        types: &declared.types,
        qualifiers: &declared.qualifiers,
        classes: &classes,
        beans: &beans,
    };
    let problems = bean_problems(alloc, &tables)?;
    if !problems.is_empty() {
        return Err(OrMemory::Fault(problems));
    }
    let list = list_beans(alloc, &tables, &declared.bindings)?;
    Ok(ListedBeans {
        list,
        declared,
        names,
    })
}

impl ListedBeans {
    /// The bean list of a deployment (Jakarta CDI 4.0, *Beans*), with the tables of what it declares and its names. If the deployment has
    /// problems, the fault is those of its names; if it has none of these, those of its beans (Jakarta CDI 4.0, *Problems detected
    /// automatically by the container*).
    pub fn build(
        alloc: Global,
        deployment: &Deployment,
    ) -> Result<ListedBeans, OrMemory<Seq<Problem>>>
        ensures list { IfOk result (λ beans. IsMadeOf deployment.now beans.list) }
        ensures declared { IfOk result (λ beans. AreDeclaredBy deployment.now beans.declared) }
        ensures names { IfOk result (λ beans. HasDeclared deployment.now beans.names) }
        ensures refused { IfErr result (IsRefusedWith deployment.now) }
    {
        let names = NameSets::of(alloc, deployment)?;
        let elements = elements_of(alloc, deployment)?;
        let problems = name_problems(alloc, deployment, &names, elements.as_slice())?;
        if !problems.is_empty() {
            return Err(OrMemory::Fault(problems));
        }
        list_named(alloc, deployment, names, elements.as_slice())
    }
}

//! The types that a deployment declares.
ghost use Rattle.std.specs.Prelude.{◌≡◌, [], IfOk};
ghost use Rattle.cdi_name_check.specs.NameProblems.{AreNameProblems};
ghost use Rattle.cdi_quals.specs.Types.{AreQualifiersOf, AreTypesOf};
ghost use Rattle.cdi_types.specs.Declarations.{declarations_of};

use cdi_base::OrMemory;
use cdi_deployment::Deployment;
use cdi_name_check::laws::law_types_sound;
use cdi_quals::QualifierTypes;
use cdi_types::{TypeTable, TypesFault};
use std::alloc::{AllocError, Global};

/// The types of a deployment, the types of its qualifiers, with the built-in ones, and those of its interceptor bindings.
pub struct DeclaredTables {
    pub types: TypeTable,
    pub qualifiers: QualifierTypes,
    pub bindings: QualifierTypes,
}

/// In one call, so that the proof of each function that owns these tables has one step here, and not one for each of its parts.
impl Drop for DeclaredTables {
    fn drop(self) {
        let Self {
            types: _types,
            qualifiers: _qualifiers,
            bindings: _bindings,
        } = self;
    }
}

/// The table of the types of a deployment whose names have no problem.
fn table_of(alloc: Global, deployment: &Deployment) -> Result<TypeTable, AllocError>
    requires { AreNameProblems deployment.now [] }
    ensures { IfOk result (λ types. types ≡ declarations_of deployment.now) }
{
    law_types_sound();
    match TypeTable::build(alloc, deployment) {
        Ok(types) => Ok(types),
        Err(OrMemory::Memory) => Err(AllocError),
        Err(OrMemory::Fault(TypesFault::Cycle)) => unreachable!(),
        Err(OrMemory::Fault(TypesFault::Unknown)) => unreachable!(),
    }
}

impl DeclaredTables {
    /// The tables of what a deployment declares, whose names have no problem.
    pub fn build(alloc: Global, deployment: &Deployment) -> Result<DeclaredTables, AllocError>
        requires { AreNameProblems deployment.now [] }
        ensures types { IfOk result (λ t. t.types ≡ declarations_of deployment.now) }
        ensures qualifiers { IfOk result (λ t. AreQualifiersOf deployment.now t.qualifiers) }
        ensures bindings { IfOk result (λ t. AreTypesOf deployment.now.names
            deployment.now.bindings t.bindings) }
    {
        let types = table_of(alloc, deployment)?;
        let qualifiers = QualifierTypes::qualifiers_of(alloc, deployment)?;
        let bindings = QualifierTypes::bindings_of(alloc, deployment)?;
        Ok(DeclaredTables {
            types,
            qualifiers,
            bindings,
        })
    }
}

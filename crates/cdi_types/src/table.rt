//! The table of the types.
ghost use Rattle.std.specs.Prelude.{◌≡◌, ◌≢◌, ◌↔◌, ◌⊎◌, ℕ, IsTrue, IfOk, OnOk, IfErr};
ghost use Rattle.cdi_types.specs.NameSet.{has};
ghost use Rattle.cdi_types.specs.ListsThose.{ListsThose};
ghost use Rattle.cdi_types.specs.Table.{IsSound, IsRefused};

use crate::declaration::TypeDeclaration;
use crate::fault::TypesFault;
use crate::graph::TypeGraph;
use crate::name_set::NameSet;
use cdi_base::{BuiltIn, Name, OrMemory, Seq};
use cdi_deployment::Deployment;
use std::alloc::{AllocError, Global};
use std::marker::Model;

/// The types of a deployment, none of which is its own proper supertype, and all of whose supertypes are types. Contracts see the
/// list of the declarations; `Object` is a type that isn't declared.
///
/// For n types it is made in at most n³ / 64 steps; a question about two types takes constant time.
#[derive(Drop)]
pub struct TypeTable {
    graph: TypeGraph,
}

impl Model for TypeTable {
    ghost use Rattle.std.specs.Prelude.{List};
    ghost use Rattle.cdi_types.specs.declared.declaration.TypeDeclaration.{TypeDeclaration};
    ghost use Rattle.cdi_types.specs.Table.{IsSound};

    ghost Value = { List TypeDeclaration };

    ghost view = { λ t. t.graph };

    ghost invariant = { λ t. IsSound t.graph };
}

impl TypeTable {
    ghost use Rattle.cdi_types.specs.Declarations.{declarations_of};
    ghost use Rattle.cdi_types.specs.Lineage as lineage;
    ghost use Rattle.cdi_types.specs.Nodes.{place_of};
    ghost use Rattle.cdi_types.specs.Subtype as spec;

    /// The table of the types of a deployment. Where it has none the fault is [`TypesFault::Cycle`] before
    /// [`TypesFault::Unknown`], unless memory runs out.
    pub fn build(alloc: Global, deployment: &Deployment) -> Result<TypeTable, OrMemory<TypesFault>>
        ensures table { IfOk result (λ table. table ≡ declarations_of deployment.now) }
        ensures sound { OnOk result (IsSound (declarations_of deployment.now)) }
        ensures refused { IfErr result (IsRefused (declarations_of deployment.now)) }
    {
        TypeTable::of(TypeGraph::build(alloc, deployment)?)
    }

    /// The table of these types. The answer is never [`OrMemory::Memory`].
    pub fn of(graph: TypeGraph) -> Result<TypeTable, OrMemory<TypesFault>>
        ensures table { IfOk result (λ table. table ≡ graph) }
        ensures sound { OnOk result (IsSound graph) }
        ensures refused { IfErr result (IsRefused graph) }
        ensures decided { IfErr result (λ e. e ≢ OrMemory.Memory) }
    {
        if graph.has_cycle() {
            return Err(OrMemory::Fault(TypesFault::Cycle));
        }
        if !graph.knows_supertypes() {
            return Err(OrMemory::Fault(TypesFault::Unknown));
        }
        Ok(TypeTable { graph })
    }

    /// No type of the table is its own proper supertype, and all supertypes are types.
    pub fn law_sound(&self)
        ensures { IsSound self.now }
    {
        let _types = self.graph.declarations();
    }

    /// The declarations.
    pub fn declarations(&self) -> &[TypeDeclaration]
        ensures { result.now ≡ self.now }
    {
        self.graph.declarations()
    }

    /// Whether a name is a type's.
    pub fn is_type(&self, name: Name) -> bool
        ensures { result ≡ spec.is_type self.now name }
    {
        self.graph.is_type(name)
    }

    /// Whether a type is a subtype of another, by the places of their first declarations, if they are declared.
    fn is_subtype_from(
        &self,
        name: Name,
        place: Option<usize>,
        above: Name,
        above_place: Option<usize>,
    ) -> bool
        ensures { place ≡ place_of self.now name → above_place ≡ place_of self.now above
            → (IsTrue result ↔ spec.IsSubtype self.now name above) }
    {
        if name == above {
            return true;
        }
        if above == BuiltIn::Object.name() {
            return true;
        }
        self.graph.is_below_from(place, above_place)
    }

    /// Whether one type is a subtype of another (Jakarta CDI 4.0, *Bean types*).
    pub fn is_subtype(&self, name: Name, above: Name) -> bool
        ensures { IsTrue result ↔ spec.IsSubtype self.now name above }
    {
        let place = self.graph.place(name);
        self.is_subtype_from(name, place, above, self.graph.place(above))
    }

    /// The types that a type is a subtype of, in the order of their declaration, and `Object` behind them. They are the bean types
    /// of a managed bean of the class that are not restricted (Jakarta CDI 4.0, *Bean types*).
    pub fn types_of(&self, alloc: Global, name: Name) -> Result<Seq<Name>, AllocError>
        ensures { IfOk result
            (λ found. ListsThose (spec.IsSubtype self.now name) (spec.all_types self.now) found) }
    {
        let place = self.graph.place(name);
        let mut found = Seq::empty(alloc);
        for (index, declared) in self.graph.declarations().iter().enumerate() {
            let above_place = self.graph.first_place(index);
            if self.is_subtype_from(name, place, declared.name, above_place) {
                found.push(declared.name)?;
            }
        }
        found.push(BuiltIn::Object.name())?;
        Ok(found)
    }

    /// Puts the types that a type is a subtype of into a set of names.
    pub fn add_types_of(
        &self,
        alloc: Global,
        name: Name,
        names: &mut NameSet,
    ) -> Result<(), AllocError>
        ensures { OnOk result ((other : ℕ) → IsTrue (has names.new other)
            ↔ (spec.IsSubtype self.now name other ⊎ IsTrue (has names.old other))) }
    {
        self.law_sound();
        let found = self.types_of(alloc, name)?;
        names.insert(name)?;
        names.insert_all(found.as_slice())?;
        Ok(())
    }

    /// The class that a class extends directly, if it names one. Where a name is declared twice, the first declaration counts.
    pub fn superclass_of(&self, name: Name) -> Option<Name>
        ensures { result ≡ lineage.superclass_of self.now name }
    {
        self.graph.superclass_of(name)
    }

    /// The types with the graph of what stands above what, which has no cycle.
    pub(crate) fn graph(&self) -> &TypeGraph
        ensures graph { result.now ≡ self.now }
        ensures acyclic { spec.IsAcyclic self.now }
    {
        &self.graph
    }
}

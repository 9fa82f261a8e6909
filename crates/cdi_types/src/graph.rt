//! The declared types with the graph of what stands above what.
ghost use Rattle.std.specs.Prelude.{◌≡◌, ◌↔◌, ℕ, Some, map, slice_get, IsTrue, IfOk, MatchBool};
ghost use Rattle.cdi_types.specs.Above.{place_above};
ghost use Rattle.cdi_types.specs.Index.{place_in};
ghost use Rattle.cdi_types.specs.declared.declaration.TypeDeclaration.{TypeDeclaration};
ghost use Rattle.std.specs.List.{list_all};

use crate::declaration::{TypeDeclaration, declarations_of};
use crate::edges::graph_of;
use crate::index::TypeIndex;
use cdi_base::{BuiltIn, Name, Seq};
use cdi_deployment::Deployment;
use cdi_paths::Reachability;
use std::alloc::{AllocError, Global};
use std::marker::Model;

/// The declared types, whatever they are: some may be their own supertypes, stand twice, or stand below unknown names. Contracts
/// see the list of the declarations. Where a name is declared twice, what both declarations name stands above it; nothing stands
/// above an unknown name.
pub struct TypeGraph {
    types: Seq<TypeDeclaration>,
    index: TypeIndex,
    /// Of each declaration the place of the first one of its name.
    firsts: Seq<Option<usize>>,
    /// Of each declaration the place of the first one of its superclass's name.
    superclasses: Seq<Option<usize>>,
    reachability: Reachability,
}

/// In one call, so that the proof of each function that owns a graph of types has one step here, and not one for each of its parts.
impl Drop for TypeGraph {
    fn drop(self) {
        let Self {
            types: _types,
            index: _index,
            firsts: _firsts,
            superclasses: _superclasses,
            reachability: _reachability,
        } = self;
    }
}

/// The places of the first declarations of the names of these.
fn first_places(
    alloc: Global,
    index: &TypeIndex,
    types: &[TypeDeclaration],
) -> Result<Seq<Option<usize>>, AllocError>
    ensures { IfOk result (λ firsts. firsts ≡ map (λ d. place_in index.now d.name) types.now) }
{
    let mut firsts = Seq::empty(alloc);
    for declared in types {
        firsts.push(index.place(declared.name))?;
    }
    Ok(firsts)
}

/// The place of the first declaration of the superclass that a declaration names.
fn superclass_place(index: &TypeIndex, declared: &TypeDeclaration) -> Option<usize>
    ensures { result ≡ place_above (place_in index.now) declared.now }
{
    index.place(declared.superclass?)
}

/// The places of the first declarations of the superclasses of these.
fn superclass_places(
    alloc: Global,
    index: &TypeIndex,
    types: &[TypeDeclaration],
) -> Result<Seq<Option<usize>>, AllocError>
    ensures { IfOk result (λ places. places ≡ map (place_above (place_in index.now)) types.now) }
{
    let mut places = Seq::empty(alloc);
    for declared in types {
        places.push(superclass_place(index, declared))?;
    }
    Ok(places)
}

impl Model for TypeGraph {
    ghost use Rattle.std.specs.Prelude.{List};
    ghost use Rattle.cdi_types.specs.declared.declaration.TypeDeclaration.{TypeDeclaration};
    ghost use Rattle.cdi_types.specs.Nodes.{IsGraphOf};

    ghost Value = { List TypeDeclaration };

    ghost view = { λ t. t.types };

    ghost invariant = { λ t. IsGraphOf
        t.types t.index t.firsts t.superclasses t.reachability };
}

impl TypeGraph {
    ghost use Rattle.cdi_types.specs.Declarations as declared;
    ghost use Rattle.cdi_types.specs.Lineage.{superclass_of};
    ghost use Rattle.cdi_types.specs.Nodes as nodes;
    ghost use Rattle.cdi_types.specs.Subtype as spec;

    /// The types of a deployment.
    pub fn build(alloc: Global, deployment: &Deployment) -> Result<TypeGraph, AllocError>
        ensures { IfOk result (λ graph. graph ≡ declared.declarations_of deployment.now) }
    {
        TypeGraph::of(alloc, declarations_of(alloc, deployment)?)
    }

    /// These declarations.
    pub fn of(alloc: Global, types: Seq<TypeDeclaration>) -> Result<TypeGraph, AllocError>
        ensures { IfOk result (λ graph. graph ≡ types) }
    {
        let index = TypeIndex::build(alloc, types.as_slice())?;
        let graph = graph_of(alloc, &index, types.as_slice())?;
        let firsts = first_places(alloc, &index, types.as_slice())?;
        let superclasses = superclass_places(alloc, &index, types.as_slice())?;
        let reachability = Reachability::build(alloc, graph)?;
        Ok(TypeGraph {
            types,
            index,
            firsts,
            superclasses,
            reachability,
        })
    }

    /// The declarations.
    pub fn declarations(&self) -> &[TypeDeclaration]
        ensures { result.now ≡ self.now }
    {
        self.types.as_slice()
    }

    /// The place of the first declaration of a name, if it is declared.
    pub fn place(&self, name: Name) -> Option<usize>
        ensures { result ≡ nodes.place_of self.now name }
    {
        self.index.place(name)
    }

    /// Whether a name is declared.
    pub fn is_declared(&self, name: Name) -> bool
        ensures { result ≡ spec.is_declared self.now name }
    {
        self.place(name).is_some()
    }

    /// Whether a name is a type's.
    pub fn is_type(&self, name: Name) -> bool
        ensures { result ≡ spec.is_type self.now name }
    {
        name == BuiltIn::Object.name() || self.is_declared(name)
    }

    /// The place of the first declaration of the name that is declared at a place.
    pub(crate) fn first_place(&self, place: usize) -> Option<usize>
        ensures { (d : TypeDeclaration) → slice_get self.now place ≡ Some d
            → result ≡ nodes.place_of self.now d.name }
    {
        *self.firsts.get(place)?
    }

    /// Whether a name stands below a declared one, by one step up or more, by the places of their first declarations. A name that isn't
    /// declared has no place, and stands below none.
    pub(crate) fn is_below_from(&self, place: Option<usize>, above: Option<usize>) -> bool
        ensures { (name other : ℕ) → place ≡ nodes.place_of self.now name
            → above ≡ nodes.place_of self.now other
            → (IsTrue result
            ↔ (IsTrue (spec.is_declared self.now other) × spec.IsBelow self.now name other)) }
    {
        let Some(to) = above else {
            return false;
        };
        let Some(from) = place else {
            return false;
        };
        self.reachability.reaches_properly(from, to)
    }

    /// Whether a name stands below a declared one, by one step up or more.
    pub fn is_below(&self, name: Name, above: Name) -> bool
        requires { IsTrue (spec.is_declared self.now above) }
        ensures { IsTrue result ↔ spec.IsBelow self.now name above }
    {
        self.is_below_from(self.place(name), self.place(above))
    }

    /// Whether a name is its own proper supertype.
    pub fn is_cyclic(&self, name: Name) -> bool
        ensures { IsTrue result ↔ spec.IsCyclic self.now name }
    {
        match self.index.place(name) {
            Some(place) => self.reachability.is_on_cycle(place),
            None => false,
        }
    }

    /// Whether a type is its own proper supertype.
    pub fn has_cycle(&self) -> bool
        ensures { MatchBool result
            ((a : ℕ) × spec.IsCyclic self.now a) (spec.IsAcyclic self.now) }
    {
        for declared in self.types.as_slice() {
            if self.is_cyclic(declared.name) {
                return true;
            }
        }
        false
    }

    /// Whether all names are types'.
    fn are_types(&self, names: &[Name]) -> bool
        ensures { result ≡ list_all (spec.is_type self.now) names.now }
    {
        names.iter().all(|name| self.is_type(*name))
    }

    /// Whether each name that a declaration puts above its type is a type's.
    fn knows_above(&self, declared: &TypeDeclaration) -> bool
        ensures { result ≡ list_all (spec.is_type self.now) (spec.direct_supertypes declared.now) }
    {
        match declared.superclass {
            Some(name) => self.is_type(name) && self.are_types(declared.interfaces.as_slice()),
            None => self.are_types(declared.interfaces.as_slice()),
        }
    }

    /// Whether each name that stands above a type is a type's.
    pub fn knows_supertypes(&self) -> bool
        ensures { result ≡ spec.knows_supertypes self.now }
    {
        self.types
            .as_slice()
            .iter()
            .all(|declared| self.knows_above(declared))
    }

    /// The class that a class extends directly, if it names one, by the place of the class's first declaration.
    pub(crate) fn superclass_from(&self, place: Option<usize>) -> Option<Name>
        ensures { (name : ℕ) → place ≡ nodes.place_of self.now name
            → result ≡ superclass_of self.now name }
    {
        self.types.get(place?)?.superclass
    }

    /// The place of the first declaration of that class.
    pub(crate) fn superclass_place_from(&self, place: Option<usize>) -> Option<usize>
        ensures { (name above : ℕ) → place ≡ nodes.place_of self.now name
            → superclass_of self.now name ≡ Some above → result ≡ nodes.place_of self.now above }
    {
        *self.superclasses.get(place?)?
    }

    /// The class that a class extends directly, if it names one. Where a name is declared twice, the first declaration counts.
    pub fn superclass_of(&self, name: Name) -> Option<Name>
        ensures { result ≡ superclass_of self.now name }
    {
        self.superclass_from(self.place(name))
    }
}

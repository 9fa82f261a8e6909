//! The types of qualifiers and of interceptor bindings.
ghost use Rattle.std.specs.Prelude.{◌≡◌, ◌==◌, ◌++◌, ℕ, position, nat_eq, IfOk, OnOk, map};
ghost use Rattle.std.specs.HashMap.{get};
ghost use Rattle.std.specs.List.{list_any};
ghost use Rattle.cdi_quals.specs.Order.{compare_names as order_of};
ghost use Rattle.cdi_quals.specs.OrderedSet.{IsOrderedSet};
ghost use Rattle.cdi_quals.specs.Types as spec;

use crate::order::compare_names;
use cdi_base::{BuiltIn, Name, Names, Seq};
use cdi_deployment::{AnnotationType, Deployment};
use std::alloc::{AllocError, Global};
use std::collections::HashMap;
use std::marker::Model;

/// A member of a qualifier type or an interceptor binding type.
#[derive(Clone, Copy, Debug, PartialEq, Eq)]
pub struct MemberType {
    pub name: Name,
    /// Whether it isn't declared nonbinding (Jakarta CDI 4.0, *Qualifier annotations with members*).
    pub is_binding: bool,
}

/// A qualifier type or an interceptor binding type.
#[derive(Debug, PartialEq, Eq, Drop)]
pub struct QualifierType {
    pub name: Name,
    /// Its members in the order of their names' texts, each once.
    pub members: Seq<MemberType>,
}

/// The types of qualifiers, or those of interceptor bindings, which are found by their names in constant time. Contracts see the list;
/// of types with one name the first counts.
#[derive(Drop)]
pub struct QualifierTypes {
    types: Seq<QualifierType>,
    places: HashMap<Name, usize>,
}

impl Model for QualifierTypes {
    ghost use Rattle.std.specs.Prelude.{◌≡◌, ◌==◌, ℕ, List, position, nat_eq};
    ghost use Rattle.std.specs.HashMap.{get};
    ghost use Rattle.cdi_quals.specs.declared.types.QualifierType.{QualifierType};

    ghost Value = { List QualifierType };

    ghost view = { λ t. t.types };

    ghost invariant = { λ t. (name : ℕ)
        → get nat_eq t.places name ≡ position (λ y. y.name == name) t.types };
}

/// Puts names in the order of their texts, and drops repeats.
fn put_in_order(names: &Names, members: &mut Vec<Name>) -> Result<(), AllocError>
    ensures { OnOk result
        (IsOrderedSet (order_of names.now) members.old.items members.new.items) }
{
    members.sort_by(|a, b| compare_names(names, *a, *b))?;
    members.dedup_by(|a, b| compare_names(names, *a, *b).is_eq());
    Ok(())
}

/// Whether a name stands in a list.
fn is_among(names: &[Name], name: Name) -> bool
    ensures { result ≡ list_any (λ n. n == name) names.now }
{
    names.iter().any(|other| *other == name)
}

/// The members with these names, each nonbinding where it is declared so.
fn members_of(
    alloc: Global,
    members: &[Name],
    nonbinding: &[Name],
) -> Result<Seq<MemberType>, AllocError>
    ensures { IfOk result (λ types. types ≡ map (spec.member_type nonbinding.now) members.now) }
{
    let mut types = Seq::empty(alloc);
    for member in members {
        types.push(MemberType {
            name: *member,
            is_binding: !is_among(nonbinding, *member),
        })?;
    }
    Ok(types)
}

/// The type that is declared so.
fn type_of(
    alloc: Global,
    names: &Names,
    declared: &AnnotationType,
) -> Result<QualifierType, AllocError>
    ensures { IfOk result (spec.IsTypeOf names.now declared.now) }
{
    let mut members = Vec::from_slice(alloc, declared.members.as_slice())?;
    put_in_order(names, &mut members)?;
    Ok(QualifierType {
        name: declared.name,
        members: members_of(alloc, members.as_slice(), declared.nonbinding.as_slice())?,
    })
}

/// The types that are declared so.
fn types_of(
    alloc: Global,
    names: &Names,
    declared: &[AnnotationType],
) -> Result<Seq<QualifierType>, AllocError>
    ensures { IfOk result (spec.AreTypesOf names.now declared.now) }
{
    let mut types = Seq::empty(alloc);
    for declaration in declared {
        types.push(type_of(alloc, names, declaration)?)?;
    }
    Ok(types)
}

fn plain(alloc: Global, qualifier: BuiltIn) -> QualifierType
    ensures { result ≡ spec.plain qualifier }
{
    QualifierType {
        name: qualifier.name(),
        members: Seq::empty(alloc),
    }
}

fn valued(alloc: Global, qualifier: BuiltIn) -> Result<QualifierType, AllocError>
    ensures { IfOk result (λ type. type ≡ spec.valued qualifier) }
{
    let mut members = Seq::empty(alloc);
    members.push(MemberType {
        name: BuiltIn::Value.name(),
        is_binding: true,
    })?;
    Ok(QualifierType {
        name: qualifier.name(),
        members,
    })
}

/// Adds the built-in qualifiers (Jakarta CDI 4.0, *Built-in qualifier types*).
fn add_built_in(alloc: Global, types: &mut Seq<QualifierType>) -> Result<(), AllocError>
    ensures { OnOk result (types.new ≡ types.old ++ spec.built_in_qualifiers) }
{
    types.push(plain(alloc, BuiltIn::Any))?;
    types.push(plain(alloc, BuiltIn::Default))?;
    types.push(valued(alloc, BuiltIn::Named)?)?;
    types.push(valued(alloc, BuiltIn::Initialized)?)?;
    types.push(valued(alloc, BuiltIn::BeforeDestroyed)?)?;
    types.push(valued(alloc, BuiltIn::Destroyed)?)?;
    Ok(())
}

/// The place of the first type of each name.
fn places_of(alloc: Global, types: &[QualifierType]) -> Result<HashMap<Name, usize>, AllocError>
    ensures { IfOk result (λ places. (name : ℕ)
        → get nat_eq places name ≡ position (λ y. y.name == name) types.now) }
{
    let mut places = HashMap::new(alloc);
    for (place, declared) in types.iter().enumerate() {
        if !places.contains_key(&declared.name) {
            places.insert(declared.name, place)?;
        }
    }
    Ok(places)
}

impl QualifierTypes {
    /// These types.
    fn new(alloc: Global, types: Seq<QualifierType>) -> Result<QualifierTypes, AllocError>
        ensures { IfOk result (λ all. all ≡ types) }
    {
        let places = places_of(alloc, types.as_slice())?;
        Ok(QualifierTypes { types, places })
    }

    /// The qualifier types of a deployment: those that it declares, and the built-in ones.
    pub fn qualifiers_of(
        alloc: Global,
        deployment: &Deployment,
    ) -> Result<QualifierTypes, AllocError>
        ensures { IfOk result (spec.AreQualifiersOf deployment.now) }
    {
        let mut types = types_of(alloc, &deployment.names, deployment.qualifiers.as_slice())?;
        add_built_in(alloc, &mut types)?;
        QualifierTypes::new(alloc, types)
    }

    /// The interceptor binding types of a deployment.
    pub fn bindings_of(alloc: Global, deployment: &Deployment) -> Result<QualifierTypes, AllocError>
        ensures { IfOk result (spec.AreTypesOf deployment.now.names deployment.now.bindings) }
    {
        let types = types_of(alloc, &deployment.names, deployment.bindings.as_slice())?;
        QualifierTypes::new(alloc, types)
    }

    /// The members of the type with a name, in the order of their names' texts. A type that isn't known has none.
    pub fn members_of(&self, name: Name) -> &[MemberType]
        ensures { result.now ≡ spec.members_of self.now name }
    {
        let Some(place) = self.places.get(&name).copied() else {
            return &[];
        };
        match self.types.get(place) {
            Some(declared) => declared.members.as_slice(),
            None => &[],
        }
    }
}

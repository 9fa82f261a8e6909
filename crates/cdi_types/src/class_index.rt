//! The classes of a deployment by their names.
ghost use Rattle.std.specs.Prelude.{◌≡◌, ◌≢◌, ◌==◌, ◌↔◌, ℕ, List, Some, position, nat_eq, map, slice_get, option_and_then, IfOk, IsTrue, MatchOption};
ghost use Rattle.std.specs.HashMap.{get};
ghost use Rattle.std.specs.Option.{option_copied};
ghost use Rattle.cdi_types.specs.Line.{class_named, place_named, place_of_superclass, superclass_at, IsLineOf};
ghost use Rattle.cdi_types.specs.Nodes.{place_of};
ghost use Rattle.cdi_types.specs.Subtype.{IsAcyclic, object};
ghost use Rattle.cdi_types.specs.Stops.{IsStop, IsStopAbove};

use crate::graph::TypeGraph;
use crate::line::{ClassLine, in_reverse};
use crate::table::TypeTable;
use cdi_base::{BuiltIn, Name, Seq};
use cdi_deployment::Class;
use std::alloc::{AllocError, Global};
use std::collections::HashMap;
use std::marker::Model;

/// The classes of a deployment, which are found by their names in constant time. Contracts see the list of the classes.
#[derive(Drop)]
pub struct ClassIndex<'a> {
    classes: &'a [Class],
    places: HashMap<Name, usize>,
    /// Of each class the place of the first class of the name that it extends.
    above: Seq<Option<usize>>,
}

impl<'a> Model for ClassIndex<'a> {
    ghost use Rattle.std.specs.Prelude.{List, ◌≡◌, ◌==◌, ℕ, position, nat_eq, map};
    ghost use Rattle.std.specs.HashMap.{get};
    ghost use Rattle.cdi_deployment.specs.declared.deployment.Class.{Class};
    ghost use Rattle.cdi_types.specs.Line.{place_named, place_of_superclass};

    ghost Value = { List Class };

    ghost view = { λ t. t.classes.now };

    ghost invariant = { λ t.
        ((name : ℕ) → get nat_eq t.places name ≡ place_named t.classes.now name)
        × (t.above ≡ map (place_of_superclass (place_named t.classes.now)) t.classes.now) };
}

/// The place of the first class of each name.
fn places_of(alloc: Global, classes: &[Class]) -> Result<HashMap<Name, usize>, AllocError>
    ensures { IfOk result (λ places. (name : ℕ)
        → get nat_eq places name ≡ position (λ c. c.name == name) classes.now) }
{
    let mut places = HashMap::new(alloc);
    for (place, class) in classes.iter().enumerate() {
        if !places.contains_key(&class.name) {
            places.insert(class.name, place)?;
        }
    }
    Ok(places)
}

/// The place of the first class of the name that a class extends.
fn place_above(places: &HashMap<Name, usize>, class: &Class) -> Option<usize>
    ensures { result ≡ place_of_superclass (get nat_eq places.now) class.now }
{
    places.get(&class.extends?).copied()
}

/// The places of the first classes of the names that these extend.
fn places_above(
    alloc: Global,
    places: &HashMap<Name, usize>,
    classes: &[Class],
) -> Result<Seq<Option<usize>>, AllocError>
    ensures { IfOk result (λ above. above
        ≡ map (place_of_superclass (get nat_eq places.now)) classes.now) }
{
    let mut above = Seq::empty(alloc);
    for class in classes {
        above.push(place_above(places, class))?;
    }
    Ok(above)
}

/// A name on the way up a line, with the place of its first declaration and that of its first class.
#[derive(Clone, Copy)]
struct Stop {
    name: Name,
    place: Option<usize>,
    class_place: Option<usize>,
}

/// The way goes on from a name, unless that is `Object`.
fn stop_at(name: Name, place: Option<usize>, class_place: Option<usize>) -> Option<Stop>
    ensures { MatchOption result (name ≡ object) (λ stop. (name ≢ object) × (stop
        ≡ record { name = name; place = place; class_place = class_place })) }
{
    if name == BuiltIn::Object.name() {
        return None;
    }
    Some(Stop {
        name,
        place,
        class_place,
    })
}

impl<'a> ClassIndex<'a> {
    /// The classes of a deployment.
    pub fn build(alloc: Global, classes: &'a [Class]) -> Result<ClassIndex<'a>, AllocError>
        ensures { IfOk result (λ index. index ≡ classes.now) }
    {
        let places = places_of(alloc, classes)?;
        let above = places_above(alloc, &places, classes)?;
        Ok(ClassIndex {
            classes,
            places,
            above,
        })
    }

    /// The place of the first class of a name, if one has it.
    fn place(&self, name: Name) -> Option<usize>
        ensures { result ≡ place_named self.now name }
    {
        self.places.get(&name).copied()
    }

    /// The class at a place, if there is one.
    fn at(&self, place: Option<usize>) -> Option<&'a Class>
        ensures { option_copied result ≡ option_and_then (slice_get self.now) place }
    {
        self.classes.get(place?)
    }

    /// The class of a name, if one has it. If several have it, the first one counts.
    pub fn class(&self, name: Name) -> Option<&'a Class>
        ensures { option_copied result ≡ class_named self.now name }
    {
        self.at(self.place(name))
    }

    /// Whether the class at a place extends the class of a name.
    fn extends(&self, place: usize, superclass: Name) -> bool
        ensures { IsTrue result ↔ (superclass_at self.now place ≡ Some superclass) }
    {
        match self.classes.get(place) {
            Some(class) => class.extends == Some(superclass),
            None => false,
        }
    }

    /// The place of the first class of the name that the class at a place extends.
    fn place_above(&self, place: usize) -> Option<usize>
        ensures { result ≡ option_and_then (place_named self.now) (superclass_at self.now place) }
    {
        *self.above.get(place)?
    }

    /// The place of the first class of a superclass's name, if one has it. Where the class at a place extends it, nothing is looked up.
    fn superclass_place(&self, place: Option<usize>, superclass: Name) -> Option<usize>
        ensures { result ≡ place_named self.now superclass }
    {
        match place {
            Some(place) if self.extends(place, superclass) => self.place_above(place),
            _ => self.place(superclass),
        }
    }

    /// The next name on the way up, if a class is extended that isn't `Object`.
    fn above(&self, graph: &TypeGraph, stop: Stop) -> Option<Stop>
        requires { IsStop graph.now self.now stop }
        ensures { IsStopAbove graph.now self.now stop.name result }
    {
        let name = graph.superclass_from(stop.place)?;
        let place = graph.superclass_place_from(stop.place);
        stop_at(name, place, self.superclass_place(stop.class_place, name))
    }

    /// The classes of the lineage of a name, the topmost first, by the place of its first declaration and that of its first class.
    fn line_from(
        &self,
        alloc: Global,
        graph: &TypeGraph,
        name: Name,
        place: Option<usize>,
        class_place: Option<usize>,
    ) -> Result<Seq<&'a Class>, AllocError>
        requires acyclic { IsAcyclic graph.now }
        requires place { place ≡ place_of graph.now name }
        requires class { class_place ≡ place_named self.now name }
        ensures { IfOk result
            (λ line. IsLineOf graph.now self.now name (map (λ c. c.now) line)) }
    {
        let mut found = Seq::empty(alloc);
        let mut next = stop_at(name, place, class_place);
        while let Some(stop) = next {
            if let Some(class) = self.at(stop.class_place) {
                found.push(class)?;
            }
            next = self.above(graph, stop);
        }
        Ok(in_reverse(found))
    }

    /// The class of a name with its superclasses below `Object`, the topmost first. A name that no class has is passed over, so
    /// that the line of such a name is empty.
    pub fn line(
        &self,
        alloc: Global,
        types: &TypeTable,
        name: Name,
    ) -> Result<ClassLine<'a>, AllocError>
        ensures { IfOk result (λ line. IsLineOf types.now self.now name line) }
    {
        let graph = types.graph();
        let line = self.line_from(alloc, graph, name, graph.place(name), self.place(name))?;
        Ok(ClassLine::new(line))
    }
}

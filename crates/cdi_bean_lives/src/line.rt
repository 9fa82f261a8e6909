//! The classes of a line, added to those of which is kept what they have.
ghost use Rattle.std.specs.Prelude.{◌≡◌, ◌≤◌, ◌^◌, ℕ, None, Some, length, map, IfOk, IfSome, IsSome, OnOk};
ghost use Rattle.cdi_bean_lives.specs.Lives as spec;
ghost use Rattle.cdi_bean_lives.specs.Parts as parts;
ghost use Rattle.cdi_class_lives.specs.ClassLives.{line_of};
ghost use Rattle.cdi_numbered_plans.specs.Numbered as numbered;
ghost use Rattle.cdi_types.specs.Line.{class_named};

use crate::class::{KeptClass, add_class};
use cdi_base::{Name, Seq};
use cdi_cache::Lookup;
use cdi_class_lives::ClassLives;
use cdi_deployment::Class;
use cdi_numbered_plans::Numbering;
use cdi_planner::Planner;
use cdi_resolve::Resolver;
use std::alloc::{AllocError, Global};
use std::collections::HashMap;

/// How much of a line is kept, from the top.
#[derive(Clone, Copy)]
struct KeptPart {
    /// Of how many classes.
    count: usize,
    /// The last one of these.
    last: Option<KeptClass>,
}

/// The names of these classes.
fn names_of(alloc: Global, line: &[&Class]) -> Result<Seq<Name>, AllocError>
    ensures { IfOk result (λ names. names ≡ parts.names_of (map (λ c. c.now) line.now)) }
{
    let mut names = Seq::empty(alloc);
    for class in line {
        names.push(class.name)?;
    }
    Ok(names)
}

/// The classes of which is kept what they have, while more are added.
#[derive(Drop)]
pub(crate) struct KeptLines {
    pub(crate) lives: ClassLives,
    /// Where a class is kept, by its name.
    places: HashMap<Name, usize>,
}

impl KeptLines {
    /// No class is kept.
    pub(crate) fn new(alloc: Global) -> Result<KeptLines, AllocError>
        ensures { IfOk result (λ kept. (place : ℕ) → line_of kept.lives place ≡ None) }
    {
        Ok(KeptLines {
            lives: ClassLives::new(alloc)?,
            places: HashMap::new(alloc),
        })
    }

    /// What the classes have.
    pub(crate) fn into_lives(self) -> ClassLives
        ensures { result ≡ self.lives }
    {
        let KeptLines {
            lives,
            places: _places,
        } = self;
        lives
    }

    /// The last class of a line of these names, if it is kept with this line.
    fn kept_with(&self, line: &[Name]) -> Option<KeptClass>
        ensures { IfSome result (λ kept. parts.IsPartKept
            self.now.lives line.now (length line.now) (Some kept)) }
    {
        let name = *line.last()?;
        let place = *self.places.get(&name)?;
        if self.lives.has_line(place, line) {
            Some(KeptClass { place, name })
        } else {
            None
        }
    }

    /// How much of a line of these names is kept. The names are compared where a class of the last one's name is kept: that one has the
    /// same line, so it happens once.
    fn kept_part(&self, line: &[Name]) -> KeptPart
        ensures { parts.IsPartKept self.now.lives line.now result.count result.last }
    {
        let mut count = line.len();
        while count > 0 {
            let last = self.kept_with(&line[..count]);
            if last.is_some() {
                return KeptPart { count, last };
            }
            count -= 1;
        }
        KeptPart { count, last: None }
    }

    /// Adds a class below another one, or one that has no superclass.
    fn add_below(
        &mut self,
        alloc: Global,
        planner: &Planner<'_>,
        numbering: &Numbering<'_>,
        lookup: &mut Lookup<&Resolver>,
        above: Option<KeptClass>,
        class: &Class,
    ) -> Result<KeptClass, AllocError>
        requires asks { numbered.AsksNumbered numbering.now lookup.old.now }
        requires few { length planner.now.chains.interceptors ≤ 2 ^ 32 }
        requires lives { spec.AreLives planner.now numbering.now self.old.lives }
        requires above { spec.IsKeptIfAny self.old.lives above }
        requires line { spec.IsLineBelow planner.now self.old.lives above class.now }
        ensures lives { OnOk result (spec.AreLives planner.now numbering.now self.new.lives) }
        ensures name { IfOk result (λ kept. kept.name ≡ class.now.name) }
        ensures added { IfOk result (λ kept. spec.IsClassAdded
            self.old.lives above class.now.name self.new.lives kept.place) }
        ensures kept { numbered.AsksNumbered numbering.now lookup.new.now }
    {
        let lives = &mut self.lives;
        let place = add_class(alloc, planner, numbering, lookup, lives, above, class)?;
        let name = class.name;
        self.places.insert(name, place)?;
        Ok(KeptClass { place, name })
    }

    /// Adds the classes of a line, but for those that are kept, and gives the last one, if there is one.
    fn add_classes(
        &mut self,
        alloc: Global,
        planner: &Planner<'_>,
        numbering: &Numbering<'_>,
        lookup: &mut Lookup<&Resolver>,
        line: &[&Class],
    ) -> Result<Option<KeptClass>, AllocError>
        requires asks { numbered.AsksNumbered numbering.now lookup.old.now }
        requires few { length planner.now.chains.interceptors ≤ 2 ^ 32 }
        requires lives { spec.AreLives planner.now numbering.now self.old.lives }
        requires line { parts.IsWholeLine planner.now (map (λ c. c.now) line.now) }
        ensures lives { OnOk result (spec.AreLives planner.now numbering.now self.new.lives) }
        ensures line { IfOk result (parts.IsPartKept self.new.lives
            (parts.names_of (map (λ c. c.now) line.now)) (length line.now)) }
        ensures others { OnOk result (spec.KeepsLives self.old.lives self.new.lives) }
        ensures kept { numbered.AsksNumbered numbering.now lookup.new.now }
    {
        let names = names_of(alloc, line)?;
        let part = self.kept_part(names.as_slice());
        let mut count = part.count;
        let mut last = part.last;
        while let Some(class) = line.get(count) {
            last = Some(self.add_below(alloc, planner, numbering, lookup, last, class)?);
            count += 1;
        }
        Ok(last)
    }

    /// Adds the classes of the line of a class, but for those that are kept, and gives the place of the class. Of all names only that of
    /// `Object` has no line, and no class of a deployment whose names have no problem has it: there it gives up.
    pub(crate) fn add_line(
        &mut self,
        alloc: Global,
        planner: &Planner<'_>,
        numbering: &Numbering<'_>,
        lookup: &mut Lookup<&Resolver>,
        class: Name,
    ) -> Result<usize, AllocError>
        requires asks { numbered.AsksNumbered numbering.now lookup.old.now }
        requires few { length planner.now.chains.interceptors ≤ 2 ^ 32 }
        requires declared { IsSome (class_named planner.now.classes class) }
        requires lives { spec.AreLives planner.now numbering.now self.old.lives }
        ensures lives { OnOk result (spec.AreLives planner.now numbering.now self.new.lives) }
        ensures line { IfOk result (spec.IsKeptClass planner.now self.new.lives class) }
        ensures others { OnOk result (spec.KeepsLives self.old.lives self.new.lives) }
        ensures kept { numbered.AsksNumbered numbering.now lookup.new.now }
    {
        let line = planner.line(alloc, class)?;
        match self.add_classes(alloc, planner, numbering, lookup, line.classes())? {
            Some(kept) => Ok(kept.place),
            None => Err(AllocError),
        }
    }
}

//! The table of bodies.
ghost use Rattle.std.specs.Prelude.{◌≡◌, ◌<◌, ◌↔◌, [], length, true, Some, IsTrue, IfOk, OnOk, OnErr, IfErr};
ghost use Rattle.cdi_bodies.specs.Shape.{in_shape, KeepsShape};
ghost use Rattle.cdi_bodies.specs.Gives.{Promises, gives, place_of, is_named, shape_at, name_at, lookups_of, LiesInShape, LieInShape};
ghost use Rattle.cdi_bodies.specs.Adding.{Adds, IsRefused, body_of, is_repeated, is_full, lacks_room};

use crate::entry::{Body, Entry};
use crate::error::AddError;
use crate::shape::{Lookup, Shape};
use crate::view::View;
use cdi_base::{Act, Fields, Name, Seq};
use std::alloc::{AllocError, Global};
use std::marker::Model;

/// The most bodies that a table holds.
pub const MAX_BODIES: usize = 4_096;

/// A body of a table, which contracts see as its number: bodies are numbered from 0 in the order in which they came.
#[derive(Clone, Copy, Debug, PartialEq, Eq, Hash)]
pub struct BodyId {
    number: usize,
}

impl Model for BodyId {
    ghost use Rattle.std.specs.Prelude.{ℕ};

    ghost Value = { ℕ };

    ghost view = { λ id. id.number };

    ghost inverse = { λ n. record { number = n } };
}

impl BodyId {
    /// The body's number: from 0 to 4,095.
    pub fn number(self) -> usize
        ensures { result ≡ self }
    {
        self.number
    }

    /// The number of no body, 4,096: what a container knows of a body that isn't registered.
    pub fn unregistered() -> BodyId
        ensures { result ≡ 4096 }
    {
        BodyId { number: MAX_BODIES }
    }
}

/// The registered bodies, each under a name of its own. Contracts see their list by the word `entries_of`.
#[derive(Drop)]
pub struct Bodies {
    entries: Vec<Entry>,
}

/// The place of the entry of a name.
fn place_in(entries: &[Entry], name: Name) -> Option<usize>
    ensures { result ≡ place_of entries.now name }
{
    for (number, entry) in entries.iter().enumerate() {
        if entry.name == name {
            return Some(number);
        }
    }
    None
}

/// What the closure answers.
fn ask(entry: &Entry, fields: &Fields, view: &View) -> Result<Act, AllocError>
    ensures given { Body.post entry.now.body fields.entry view.entry result }
    ensures within { IfOk result (λ act. in_shape entry.now.shape view.now act ≡ true) }
{
    (entry.body)(fields, view)
}

/// What the body does next.
fn next_of(entry: &Entry, fields: &Fields, view: &View) -> Result<Act, AllocError>
    ensures given { IfOk result (λ act. Promises entry.now fields.now view.now act) }
    ensures within { IfOk result (λ act. in_shape entry.now.shape view.now act ≡ true) }
{
    ask(entry, fields, view)
}

/// The lookups of a body.
fn lookups_in(entry: &Entry) -> Result<Seq<Lookup>, AllocError>
    ensures { IfOk result (λ lookups. lookups ≡ entry.now.shape.lookups) }
{
    Ok(entry.shape.lookups.clone()?)
}

impl Bodies {
    ghost use Rattle.cdi_bodies.specs.Table.{entries_of};

    /// A table with no bodies.
    pub fn new(alloc: Global) -> Bodies
        ensures { entries_of result ≡ [] }
    {
        Bodies {
            entries: Vec::new(alloc),
        }
    }

    /// How many bodies there are.
    pub fn len(&self) -> usize
        ensures { result ≡ length (entries_of self.now) }
    {
        self.entries.len()
    }

    /// Whether there is no body.
    pub fn is_empty(&self) -> bool
        ensures { IsTrue result ↔ (entries_of self.now ≡ []) }
    {
        self.entries.is_empty()
    }

    /// The body of a name.
    pub fn find(&self, name: Name) -> Option<BodyId>
        ensures { result ≡ place_of (entries_of self.now) name }
    {
        let number = place_in(&self.entries, name)?;
        Some(BodyId { number })
    }

    /// The name of a body of this table.
    pub fn name(&self, id: BodyId) -> Name
        requires { id < length (entries_of self.now) }
        ensures { name_at (entries_of self.now) id ≡ Some result }
    {
        self.entries[id.number].name
    }

    /// The shape of a body of this table.
    pub fn shape(&self, id: BodyId) -> &Shape
        requires { id < length (entries_of self.now) }
        ensures { shape_at (entries_of self.now) id ≡ Some result.now }
    {
        &self.entries[id.number].shape
    }

    /// The lookups of each body, by its number. The one error is that memory ran out.
    pub fn lookups(&self, alloc: Global) -> Result<Seq<Seq<Lookup>>, AllocError>
        ensures { IfOk result (λ all. all ≡ lookups_of (entries_of self.now)) }
    {
        let mut all = Seq::empty(alloc);
        for entry in &self.entries {
            all.push(lookups_in(entry)?)?;
        }
        Ok(all)
    }

    /// Adds a body last, under a name that no other body has. Each act that the closure may answer has to lie in the
    /// shape. On an error the body is handed back and nothing changes: a name that is there is reported as such, even
    /// where the table is full.
    pub fn add(&mut self, name: Name, shape: Shape, body: Body) -> Result<BodyId, AddError>
        requires callable { Body.IsAlwaysCallable body }
        requires within { KeepsShape (Body.post body) shape }

        ensures number { IfOk result (λ id. id ≡ length (entries_of self.old)) }
        ensures ok { OnOk result
            (Adds (entries_of self.old) (entries_of self.new) name shape body) }

        ensures repeated { IsRefused is_repeated result
            ↔ IsTrue (is_named (entries_of self.old) name) }
        ensures full { IsRefused is_full result ↔ IsTrue (lacks_room (entries_of self.old) name) }
        ensures handed_back { IfErr result (λ error. body_of error ≡ body) }
        ensures err { OnErr result (entries_of self.new ≡ entries_of self.old) }
    {
        if self.find(name).is_some() {
            return Err(AddError::Repeated(body));
        }
        if self.entries.len() >= MAX_BODIES {
            return Err(AddError::Full(body));
        }
        let id = BodyId {
            number: self.entries.len(),
        };
        match self.entries.push(Entry { name, shape, body }) {
            Ok(()) => Ok(id),
            Err(failed) => {
                let Entry { body, .. } = failed.value;
                Err(AddError::Memory(body))
            }
        }
    }

    /// What a body of this table does next: what its closure promises at these fields and this view, and so an act of
    /// its shape. The closure may answer that no memory is left.
    pub fn next(&self, id: BodyId, fields: &Fields, view: &View) -> Result<Act, AllocError>
        requires { id < length (entries_of self.now) }
        ensures given { IfOk result (gives (entries_of self.now) id fields.now view.now) }
        ensures within { IfOk result (LiesInShape (entries_of self.now) id view.now) }
    {
        next_of(&self.entries[id.number], fields, view)
    }

    /// Whatever a body of a table may give lies in its shape.
    pub fn gives_in_shape(_bodies: &Bodies)
        ensures { LieInShape (entries_of _bodies.now) }
    {}
}

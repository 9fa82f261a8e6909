//! Requests or sessions in their slots.
ghost use Rattle.std.specs.Prelude.{◌≡◌, ◌∷◌, ◌++◌, [], None, Some, length, option_map, IfOk, IsOk};
ghost use Rattle.std.specs.Prelude.{IsTrue, OnSome, OnOk, OnErr};
ghost use Rattle.std.specs.Option.{option_copied};
ghost use Rattle.std.specs.List.{list_any};
ghost use Rattle.std.specs.Prelude.{map};
ghost use Rattle.cdi_base.specs.Maps.{adjusted, at, without};
ghost use Rattle.cdi_contexts.specs.Contexts.{belongs_to, has_place, active_with, active_without};
ghost use Rattle.cdi_contexts.specs.Contexts.{ending_active};
ghost use Rattle.cdi_contexts.specs.Group.{first_kept, kept_named, marked, outline, request_of};
ghost use Rattle.cdi_contexts.specs.Group.{shown, table_at, without_at, with_table, with_table_at};
ghost use Rattle.cdi_contexts.specs.Group.{AreApart};

use crate::context::{Held, Status};
use crate::table::Table;
use cdi_base::Text;
use cdi_store::NameIndex;
use indexmap::IndexMap;
use slab::Slab;
use std::alloc::{AllocError, Global};
use std::marker::Model;

/// A request or a session: its name, the session that a request belongs to or whether a session is
/// marked, and what it has.
#[derive(Drop)]
pub struct Kept<D> {
    pub name: Text,
    pub detail: D,
    pub table: Table,
}

/// The requests or the sessions that are there, in the order in which they came, each in a slot of
/// its own.
#[derive(Drop)]
pub struct Group<D> {
    taken: Slab<()>,
    kept: IndexMap<usize, Kept<D>>,
    names: NameIndex,
}

impl<D> Model for Group<D> {
    ghost use Rattle.std.specs.Prelude.{List, ℕ};
    ghost use Rattle.cdi_contexts.specs.declared.group.Kept.{Kept as AnyKept};

    ghost Value = { List (ℕ × AnyKept D) };

    ghost use Rattle.cdi_contexts.specs.Group.{outline, AreApart, AreTaken, IsIndexOf};

    ghost view = { λ g. g.kept.entries };

    ghost invariant = { λ g. AreTaken g.taken g.kept.entries × AreApart (outline g.kept.entries)
        × IsIndexOf (outline g.kept.entries) g.names };
}

impl<D> Group<D> {
    /// Nothing.
    pub fn new(alloc: Global) -> Group<D>
        ensures { result ≡ [] }
    {
        Group {
            taken: Slab::new(alloc),
            kept: IndexMap::new(alloc),
            names: NameIndex::new(alloc),
        }
    }

    /// How many there are.
    pub fn len(&self) -> usize
        ensures { result ≡ length self.now }
    {
        self.kept.len()
    }

    /// Their names, in their order. Memory can be wanting.
    pub fn names(&self, alloc: Global) -> Result<Vec<Text>, AllocError>
        ensures { IfOk result (λ names. names.items ≡ map (λ p. p.1.name) self.now) }
    {
        let mut names = Vec::new(alloc);
        for (_slot, kept) in self.kept.iter() {
            names.push(kept.name.clone()?)?;
        }
        Ok(names)
    }

    /// No two have one slot or one name. A call does nothing: its contract is the law.
    pub fn law_apart(&self)
        ensures { AreApart (outline self.now) }
    {
        let _len = self.kept.len();
    }

    /// What the context in a slot has.
    pub fn table(&self, slot: Option<usize>) -> Option<&Table>
        ensures value { option_copied result ≡ table_at self.now slot }
        ensures apart { OnSome slot (AreApart (outline self.now)) }
    {
        match slot {
            Some(slot) => Some(&self.get(slot)?.table),
            None => None,
        }
    }

    /// What is in a slot.
    pub fn get(&self, slot: usize) -> Option<&Kept<D>>
        ensures value { option_copied result ≡ at self.now slot }
        ensures apart { AreApart (outline self.now) }
    {
        self.kept.get(&slot)
    }

    /// What has a name, with its slot.
    pub fn find(&self, name: &str) -> Option<(usize, &Kept<D>)>
        ensures value { option_map shown result ≡ kept_named self.now name.now }
        ensures apart { AreApart (outline self.now) }
    {
        let slot = self.names.find(name)?;
        Some((slot, self.kept.get(&slot)?))
    }

    /// The first that isn't being destroyed, with its slot.
    pub fn first_open(&self) -> Option<(usize, &Kept<D>)>
        ensures value { option_map shown result ≡ first_kept self.now }
        ensures apart { AreApart (outline self.now) }
    {
        for (slot, kept) in self.kept.iter() {
            if kept.table.status() == Status::Open {
                return Some((*slot, kept));
            }
        }
        None
    }

    /// Adds what is new, as the last, in a free slot. On an error nothing changes.
    pub fn insert(&mut self, kept: Kept<D>) -> Result<usize, AllocError>
    where
        D: Drop,
        requires { kept_named self.old kept.name ≡ None }
        ensures ok { IfOk result (λ slot. self.new ≡ self.old ++ (slot, kept) ∷ []) }
        ensures free { IfOk result (λ slot. at self.old slot ≡ None) }
        ensures err { OnErr result (self.new ≡ self.old) }
    {
        let name = kept.name.clone()?.into_string();
        self.kept.reserve(1)?;
        self.taken.reserve(1)?;
        self.names.add(name, self.taken.vacant_key())?;
        // From here on there is memory for all.
        let slot = self.taken.insert_reserved(());
        self.kept.insert(slot, kept)?;
        Ok(slot)
    }

    /// Gives a context something for a bean, if its slot is that of one. What the bean has already,
    /// and `Held::Making` for a bean that has an entry, need no memory. On an error nothing
    /// changes.
    pub fn put(&mut self, slot: usize, bean: u32, held: Held) -> Result<(), AllocError>
        ensures ok { OnOk result (self.new ≡ with_table slot (active_with bean held) self.old) }
        ensures err { OnErr result (self.new ≡ self.old) }
        ensures there { IsTrue (has_place (table_at self.old (Some slot)) bean held) → IsOk result }
        ensures apart { AreApart (outline self.old) }
    {
        let Some(index) = self.kept.get_index_of(&slot) else {
            return Ok(());
        };
        let kept = &mut self.kept[index];
        kept.table.put(bean, held)?;
        Ok(())
    }

    /// Takes from a context what it has for a bean.
    pub fn leave(&mut self, slot: usize, bean: u32)
        ensures left { self.new ≡ with_table slot (active_without bean) self.old }
        ensures apart { AreApart (outline self.old) }
    {
        if let Some(index) = self.kept.get_index_of(&slot) {
            let kept = &mut self.kept[index];
            kept.table.leave(bean);
        }
    }

    /// No more instances are made in a context.
    pub fn end(&mut self, slot: usize)
        ensures ended { self.new ≡ with_table slot ending_active self.old }
        ensures apart { AreApart (outline self.old) }
    {
        if let Some(index) = self.kept.get_index_of(&slot) {
            let kept = &mut self.kept[index];
            kept.table.end();
        }
    }

    /// As `put`, if there is a slot.
    pub fn put_at(&mut self, slot: Option<usize>, bean: u32, held: Held) -> Result<(), AllocError>
        ensures ok { OnOk result (self.new ≡ with_table_at slot (active_with bean held) self.old) }
        ensures err { OnErr result (self.new ≡ self.old) }
        ensures there { IsTrue (has_place (table_at self.old slot) bean held) → IsOk result }
        ensures apart { OnSome slot (AreApart (outline self.old)) }
    {
        match slot {
            Some(slot) => self.put(slot, bean, held),
            None => Ok(()),
        }
    }

    /// As `leave`, if there is a slot.
    pub fn leave_at(&mut self, slot: Option<usize>, bean: u32)
        ensures left { self.new ≡ with_table_at slot (active_without bean) self.old }
        ensures apart { OnSome slot (AreApart (outline self.old)) }
    {
        if let Some(slot) = slot {
            self.leave(slot, bean);
        }
    }

    /// As `end`, if there is a slot.
    pub fn end_at(&mut self, slot: Option<usize>)
        ensures ended { self.new ≡ with_table_at slot ending_active self.old }
        ensures apart { OnSome slot (AreApart (outline self.old)) }
    {
        if let Some(slot) = slot {
            self.end(slot);
        }
    }

    /// Takes out what is in a slot, which is free again.
    pub fn remove(&mut self, slot: usize)
    where
        D: Drop,
        ensures removed { self.new ≡ without slot self.old }
        ensures apart { AreApart (outline self.old) }
    {
        let _ = self.taken.try_remove(slot);
        if let Some(kept) = self.kept.shift_remove(&slot) {
            self.names.remove(kept.name.as_str());
        }
    }

    /// As `remove`, if there is a slot.
    pub fn remove_at(&mut self, slot: Option<usize>)
    where
        D: Drop,
        ensures removed { self.new ≡ without_at slot self.old }
        ensures apart { OnSome slot (AreApart (outline self.old)) }
    {
        if let Some(slot) = slot {
            self.remove(slot);
        }
    }
}

impl Group<Option<Text>> {
    /// Whether a request belongs to a session.
    pub fn has_member(&self, session: &str) -> bool
        ensures { result ≡ list_any (belongs_to session.now) (map (λ p. request_of p.1) self.now) }
    {
        for (_slot, kept) in self.kept.iter() {
            if kept.is_member(session) {
                return true;
            }
        }
        false
    }
}

impl Kept<Option<Text>> {
    /// Whether the request belongs to a session.
    fn is_member(&self, session: &str) -> bool
        ensures { result ≡ belongs_to session.now (request_of self.now) }
    {
        match &self.detail {
            Some(name) => name.as_str() == session,
            None => false,
        }
    }
}

impl Group<bool> {
    /// Marks the session in a slot.
    pub fn mark(&mut self, slot: usize)
        ensures marked { self.new ≡ adjusted slot marked self.old }
        ensures apart { AreApart (outline self.old) }
    {
        if let Some(index) = self.kept.get_index_of(&slot) {
            let kept = &mut self.kept[index];
            kept.detail = true;
        }
    }
}

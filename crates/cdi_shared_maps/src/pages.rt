//! Pages of values.
ghost use Rattle.std.specs.Prelude.{◌≡◌, ◌<◌, ◌==◌, ◌&&◌, ◌++◌, ◌∷◌, [], ℕ, None, length, if◌then◌else◌, slice_index_or, IfOk, OnOk, OnErr};
ghost use Rattle.cdi_shared_maps.specs.Pages.{value_on};

use std::alloc::{AllocError, Global};
use std::marker::Model;

/// How many keys in a row share a page.
pub(crate) const PAGE_LEN: usize = 32;

/// Pages of 32 values each, by their numbers. Contracts see the list of the pages, and read a value on one of them by `value_on`.
#[derive(Drop)]
pub(crate) struct Pages {
    pages: Vec<[Option<u32>; PAGE_LEN]>,
}

impl Model for Pages {
    ghost use Rattle.std.specs.Prelude.{◌≡◌, ℕ, List, Option, length, All};
    ghost use Rattle.cdi_shared_maps.specs.declared.pages.TheConstants.{PAGE_LEN};

    ghost Value = { List (List (Option ℕ)) };

    ghost view = { λ p. p.pages.items };

    ghost invariant = { λ p. All (λ page. length page ≡ PAGE_LEN) p.pages.items };
}

impl Pages {
    /// One page, which has nothing.
    pub(crate) fn new(alloc: Global) -> Result<Pages, AllocError>
        ensures one { IfOk result (λ pages. length pages ≡ 1) }
        ensures nothing { IfOk result (λ pages. (place : ℕ) → value_on pages 0 place ≡ None) }
    {
        let mut pages = Vec::new(alloc);
        pages.push([None; PAGE_LEN])?;
        Ok(Pages { pages })
    }

    /// How many pages there are.
    pub(crate) fn len(&self) -> usize
        ensures { result ≡ length self.now }
    {
        self.pages.len()
    }

    /// The value at a place of a page; none if there is no such page or place.
    pub(crate) fn get(&self, page: u32, place: usize) -> Option<u32>
        ensures { result ≡ value_on self.now page place }
    {
        *self.pages.get(page as usize)?.get(place)?
    }

    /// Adds a copy of a page, and gives its number. Where there is no memory or no number is left, which is after a terabyte of
    /// pages, nothing changes.
    pub(crate) fn copy_of(&mut self, page: u32) -> Result<u32, AllocError>
        requires { page < length self.old }
        ensures number { IfOk result (λ copy. copy ≡ length self.old) }
        ensures ok { OnOk result
            (self.new ≡ self.old ++ slice_index_or self.old page [] ∷ []) }
        ensures err { OnErr result (self.new ≡ self.old) }
    {
        let Ok(copy) = u32::try_from(self.pages.len()) else {
            return Err(AllocError);
        };
        let page = self.pages[page as usize];
        self.pages.push(page)?;
        Ok(copy)
    }

    /// Gives a place of a page a value.
    pub(crate) fn set(&mut self, page: u32, place: usize, value: Option<u32>)
        requires page { page < length self.old }
        requires place { place < PAGE_LEN }
        ensures len { length self.new ≡ length self.old }
        ensures values { (n i : ℕ) → value_on self.new n i
            ≡ (if n == page && i == place then value else value_on self.old n i) }
    {
        let page = &mut self.pages[page as usize];
        page[place] = value;
    }
}

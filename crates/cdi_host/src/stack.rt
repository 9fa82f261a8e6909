//! A stack, which contracts see as the list of its items, the innermost first.
ghost use Rattle.std.specs.Prelude.{◌≡◌, ◌∷◌, [], length, reverse, MatchOption, OnOk, OnErr};
ghost use Rattle.std.specs.Option.{option_copied};
ghost use Rattle.cdi_machine.specs.World.{below};
ghost use Rattle.cdi_host.specs.Stack.{innermost};

mod invocations;
mod temporaries;

use std::alloc::{AllocFailed, Global};
use std::marker::Model;

/// A stack over a `Vec`, which contracts see as the list of its items, the innermost first.
#[derive(Drop)]
pub struct Stack<T> {
    /// The innermost last.
    items: Vec<T>,
}

impl<T> Model for Stack<T> {
    ghost use Rattle.std.specs.Prelude.{List, reverse};

    ghost Value = { List T };

    ghost view = { λ s. reverse s.items.items };
}

impl<T> Stack<T> {
    /// No items.
    pub fn new(alloc: Global) -> Stack<T>
        ensures { result ≡ [] }
    {
        Stack {
            items: Vec::new(alloc),
        }
    }

    /// The items of a `Vec`, the first innermost.
    pub fn from_first(items: Vec<T>) -> Stack<T>
        ensures { result ≡ items.items }
    {
        let mut items = items;
        items.reverse();
        Stack { items }
    }

    /// How many items there are.
    pub fn len(&self) -> usize
        ensures { result ≡ length self.now }
    {
        self.items.len()
    }

    /// The innermost item, if there is one.
    pub fn top(&self) -> Option<&T>
        ensures { option_copied result ≡ innermost self.now }
    {
        self.items.as_slice().last()
    }

    /// The items, the innermost last.
    pub fn outermost_first(&self) -> &[T]
        ensures { self.now ≡ reverse result.now }
    {
        self.items.as_slice()
    }

    /// Adds an item as the innermost. On an error nothing changes.
    pub fn push(&mut self, item: T) -> Result<(), AllocFailed<T>>
        ensures ok { OnOk result (self.new ≡ item ∷ self.old) }
        ensures err { OnErr result (self.new ≡ self.old) }
    {
        self.items.push(item)
    }

    /// Takes the innermost item, if there is one.
    pub fn take(&mut self) -> Option<T>
        ensures { MatchOption result (self.old ≡ []) (λ item. self.old ≡ item ∷ self.new) }
    {
        self.items.pop()
    }

    /// Takes the innermost item away, if there is one.
    pub fn pop(&mut self)
    where
        T: Drop,
        ensures { self.new ≡ below self.old }
    {
        let _ = self.items.pop();
    }
}

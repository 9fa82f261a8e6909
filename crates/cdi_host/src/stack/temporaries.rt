//! What each running call, or a call or read command, has borrowed: the numbers of instances in the
//! order in which they became ready.
ghost use Rattle.std.specs.Prelude.{◌≡◌, ◌++◌, ◌∷◌, [], map, option_map, OnOk, OnErr};
ghost use Rattle.cdi_machine.specs.Destruction.{latest};
ghost use Rattle.cdi_machine.specs.World.{on_top};
ghost use Rattle.cdi_store.specs.Live.{all_but};
ghost use Rattle.cdi_host.specs.Stack.{innermost};

use super::Stack;
use cdi_base::Seq;
use std::alloc::{AllocError, Global};
use std::mem;

impl Stack<Seq<u32>> {
    /// The latest number of the innermost list, if it has one, and if there is a list.
    pub fn latest(&self) -> Option<Option<u32>>
        ensures { result ≡ option_map latest (innermost self.now) }
    {
        let innermost = self.top()?;
        Some(innermost.as_slice().last().copied())
    }

    /// Adds a number at the end of the innermost list, if there is one. On an error nothing
    /// changes.
    pub fn add(&mut self, number: u32) -> Result<(), AllocError>
        ensures ok { OnOk result (self.new ≡ on_top (λ numbers. numbers ++ number ∷ []) self.old) }
        ensures err { OnErr result (self.new ≡ self.old) }
    {
        if let Some(innermost) = self.items.last_mut() {
            innermost.push(number)?;
        }
        Ok(())
    }

    /// Takes a number out of all lists, however often it stands there.
    pub fn forget(&mut self, number: u32, alloc: Global)
        ensures { self.new ≡ map (all_but number) self.old }
    {
        for numbers in self.items.iter_mut() {
            take_from(numbers, number, alloc);
        }
    }
}

/// Takes a number out of a list, however often it stands there.
fn take_from(numbers: &mut Seq<u32>, number: u32, alloc: Global)
    ensures { numbers.new ≡ all_but number numbers.old }
{
    let mut all = mem::replace(numbers, Seq::empty(alloc)).into_vec();
    all.retain(|n| *n != number);
    *numbers = Seq::new(all);
}

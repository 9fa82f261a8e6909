//! The list of an instance's dependent objects.
ghost use Rattle.std.specs.Prelude.{◌≡◌, ◌++◌, ◌∷◌, [], OnOk, OnErr};
ghost use Rattle.cdi_store.specs.Live.{all_but};

use cdi_base::Seq;
use std::alloc::{AllocError, Global};
use std::mem;

/// Takes a number out of a list, however often it stands there.
pub(crate) fn remove_from(numbers: &mut Seq<u32>, number: u32, alloc: Global)
    ensures { numbers.new ≡ all_but number numbers.old }
{
    let mut all = mem::replace(numbers, Seq::empty(alloc)).into_vec();
    all.retain(|n| *n != number);
    *numbers = Seq::new(all);
}

/// Puts a number at the end of a list and takes it out of every other place. On an error nothing changes.
pub(crate) fn put_last(numbers: &mut Seq<u32>, number: u32, alloc: Global) -> Result<(), AllocError>
    ensures ok { OnOk result (numbers.new ≡ all_but number numbers.old ++ number ∷ []) }
    ensures err { OnErr result (numbers.new ≡ numbers.old) }
{
    let mut all = mem::replace(numbers, Seq::empty(alloc)).into_vec();
    if let Err(error) = all.reserve(1) {
        *numbers = Seq::new(all);
        return Err(error);
    }
    all.retain(|n| *n != number);
    all.push_reserved(number);
    *numbers = Seq::new(all);
    Ok(())
}

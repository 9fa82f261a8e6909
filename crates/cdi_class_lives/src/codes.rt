//! Callbacks that a class has of its direct superclass.
ghost use Rattle.std.specs.Prelude.{◌≡◌, ◌++◌, filter, IfOk, OnOk};
ghost use Rattle.cdi_class_lives.specs.Inheriting as spec;
ghost use Rattle.cdi_method_maps.specs.NamedMethods.{is_among};

use cdi_base::{Name, Place, Seq};
use cdi_machine::Code;
use std::alloc::{AllocError, Global};

/// Whether a name is one of these.
fn is_among(names: &[Name], name: Name) -> bool
    ensures { result ≡ is_among name names.now }
{
    names.iter().any(|other| *other == name)
}

/// Whether a class that declares members of these names leaves what stands at a place.
pub(crate) fn leaves_place(declared: &[Name], place: Place) -> bool
    ensures { result ≡ spec.leaves_place declared.now place }
{
    match place {
        Place::Member { member, .. } => !is_among(declared, member),
        _ => true,
    }
}

/// Those of these callbacks that a class which declares members of these names leaves.
pub(crate) fn left_codes(
    alloc: Global,
    codes: &[Code],
    declared: &[Name],
) -> Result<Seq<Code>, AllocError>
    ensures { IfOk result (λ left. left ≡ filter (spec.leaves_code declared.now) codes.now) }
{
    let mut left = Seq::empty(alloc);
    for code in codes {
        if leaves_place(declared, code.place()) {
            left.push(*code)?;
        }
    }
    Ok(left)
}

/// Adds callbacks behind these.
pub(crate) fn add_codes(codes: &mut Seq<Code>, more: &[Code]) -> Result<(), AllocError>
    ensures { OnOk result (codes.new ≡ codes.old ++ more.now) }
{
    for code in more {
        codes.push(*code)?;
    }
    Ok(())
}

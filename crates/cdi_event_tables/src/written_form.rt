//! The written form of an event's qualifiers.
ghost use Rattle.std.specs.Prelude.{◌≡◌, filter, map, not, IfOk};
ghost use Rattle.cdi_event_tables.specs.Events as spec;

use cdi_base::{BuiltIn, MemberValue, Names, Seq, Use};
use cdi_quals::{QualSet, Qualifier, QualifierMember, QualifierTypes};
use std::alloc::{AllocError, Global};

/// The values of some members, which may be null.
fn written_members(
    alloc: Global,
    members: &[QualifierMember],
) -> Result<Seq<MemberValue>, AllocError>
    ensures { IfOk result (λ written. written ≡ map spec.written_member members.now) }
{
    let mut written = Seq::empty(alloc);
    for member in members {
        written.push(MemberValue {
            name: member.name,
            value: member.value.clone()?,
        })?;
    }
    Ok(written)
}

/// A qualifier as a use that gives each of its members.
fn written_use(alloc: Global, qualifier: &Qualifier) -> Result<Use, AllocError>
    ensures { IfOk result (λ written. written ≡ spec.written_use qualifier.now) }
{
    Ok(Use {
        name: qualifier.name,
        members: written_members(alloc, qualifier.members.as_slice())?,
    })
}

/// Those of some qualifiers that aren't `Any`, as such uses.
fn written_but_any(alloc: Global, qualifiers: &[Qualifier]) -> Result<Seq<Use>, AllocError>
    ensures { IfOk result (λ written. written
        ≡ map spec.written_use (filter spec.is_not_any qualifiers.now)) }
{
    let mut written = Seq::empty(alloc);
    for qualifier in qualifiers {
        if qualifier.name != BuiltIn::Any.name() {
            written.push(written_use(alloc, qualifier)?)?;
        }
    }
    Ok(written)
}

/// The qualifiers of an event in the form in which entries write them, however they were given: all but `Any`, which every event has,
/// each once, in the order of their names' texts and then of their values, and each with all the members of its type, those that aren't
/// given as null.
pub fn written_uses(
    alloc: Global,
    names: &Names,
    types: &QualifierTypes,
    uses: &[Use],
) -> Result<Seq<Use>, AllocError>
    ensures { IfOk result (λ written. written
        ≡ spec.written_uses names.now types.now uses.now) }
{
    let set = QualSet::new(alloc, names, types, uses)?;
    written_but_any(alloc, set.as_slice())
}

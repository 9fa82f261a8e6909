//! Whether a member is inherited.
ghost use Rattle.std.specs.Prelude.{◌≡◌};
ghost use Rattle.cdi_types.specs.Members as spec;

use cdi_deployment::Member;

/// Whether classes inherit a member from their superclasses.
pub(crate) fn is_inherited(member: &Member) -> bool
    ensures { result ≡ spec.is_inherited member.now }
{
    match member {
        Member::Producer(_) => false,
        Member::ProducerField(_) => false,
        Member::Disposer(_) => false,
        _ => true,
    }
}

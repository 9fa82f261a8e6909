//! Required qualifiers as they were written.
ghost use Rattle.std.specs.Prelude.{◌≡◌};
ghost use Rattle.cdi_resolve.specs.WrittenUses as spec;

use cdi_base::Use;
use cdi_quals::{MemberType, QualifierTypes};

/// Required qualifiers as they were written. The types say which members each has; those that it doesn't give are null.
#[derive(Clone, Copy)]
pub(crate) struct WrittenUses<'a> {
    pub types: &'a QualifierTypes,
    pub uses: &'a [Use],
    /// The members of the type of the first use, so that they are looked up once, and not for each bean.
    pub first: &'a [MemberType],
    pub ghost first_is: { first.now ≡ spec.first_members types.now uses.now },
}

/// The members of the type of the first use, if there is one.
fn first_members<'a>(types: &'a QualifierTypes, uses: &[Use]) -> &'a [MemberType]
    ensures { result.now ≡ spec.first_members types.now uses.now }
{
    match uses {
        [] => &[],
        [first, ..] => types.members_of(first.name),
    }
}

impl<'a> WrittenUses<'a> {
    /// These uses of these types.
    pub(crate) fn new(types: &'a QualifierTypes, uses: &'a [Use]) -> WrittenUses<'a>
        ensures types { result.types.now ≡ types.now }
        ensures uses { result.uses.now ≡ uses.now }
    {
        WrittenUses {
            types,
            uses,
            first: first_members(types, uses),
        }
    }
}

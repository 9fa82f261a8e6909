//! The keys by which beans are found.
use cdi_base::Name;

/// What a bean is found by.
#[derive(Clone, Copy, PartialEq, Eq, Hash)]
pub(crate) enum BeanKey {
    /// One of its types.
    Type(Name),
    /// The type of one of its qualifiers, with a digest of the values of this one's members.
    Qualifier { name: Name, digest: u64 },
}

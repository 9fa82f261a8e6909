//! What a type and qualifiers resolve to.

/// What a type and qualifiers resolve to (Jakarta CDI 4.0, *Unsatisfied and ambiguous dependencies*).
#[derive(Clone, Copy, Debug, PartialEq, Eq)]
pub enum Resolution {
    /// No enabled bean is eligible.
    Nothing,
    /// The one bean, by its index in the bean list.
    One(usize),
    /// Several beans are left, and none of them goes before the others.
    Many,
}

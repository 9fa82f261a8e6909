//! The kinds of problems that injection points have.

/// A problem of an injection point.
#[derive(Clone, Copy, Debug, PartialEq, Eq)]
pub enum PointProblem {
    /// No bean has its type and qualifiers (Jakarta CDI 4.0, *Unsatisfied and ambiguous dependencies*).
    Unsatisfied,
    /// Several beans have them, and none goes before the others.
    Ambiguous,
    /// Its type is a final class, and its bean has a normal scope (Jakarta CDI 4.0, *Unproxyable bean types*).
    Unproxyable,
}

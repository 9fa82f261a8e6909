//! A managed bean, as far as it decides what is enabled.

/// What decides whether a managed bean is enabled.
#[derive(Clone, Copy, Debug, PartialEq, Eq)]
pub struct ManagedBean {
    /// The bean that it directly specializes, by its index (Jakarta CDI 4.0, *Specialization*).
    pub specializes: Option<usize>,
    /// Whether it is an alternative (Jakarta CDI 4.0, *Alternatives*).
    pub alternative: bool,
    /// Whether it is a selected alternative: by its priority or by the list of those that are selected (Jakarta CDI 4.0, *Declaring
    /// selected alternatives*).
    pub selected: bool,
}

//! What may lie on a cycle.

/// An enabled bean of the dependent pseudo-scope, or an enabled interceptor.
#[derive(Clone, Copy, Debug, PartialEq, Eq)]
pub enum Node {
    /// By its index in the bean list.
    Bean(usize),
    /// By its place among the enabled interceptors.
    Interceptor(usize),
}

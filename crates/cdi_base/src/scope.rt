//! The scopes of beans.

/// The scope of a bean (Jakarta CDI 4.0, *Built-in scope types*).
#[derive(Clone, Copy, Debug, PartialEq, Eq)]
pub enum Scope {
    /// One contextual instance for the whole application.
    ApplicationScoped,
    /// One contextual instance for each session.
    SessionScoped,
    /// One contextual instance for each request.
    RequestScoped,
    /// A new instance for each injection point (Jakarta CDI 4.0, *Dependent pseudo-scope*). This is the scope of a
    /// bean that declares none (Jakarta CDI 4.0, *Default scope*).
    Dependent,
}

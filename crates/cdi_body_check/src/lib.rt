//! What in a deployment names a body, and the problems of live ones by the shapes of the bodies that are registered: bodies that
//! aren't, that go on with a chain where there is none, or that throw a checked exception from a lifecycle callback.
#![tactic(auto)]

pub mod checked_lifecycle;
pub mod exceptions;
pub mod finding;
pub mod proceed_not_allowed;
pub mod shapes;
pub mod site;
pub mod tables;
pub mod unknown_body;

pub use checked_lifecycle::checked_lifecycles;
pub use exceptions::DeclaredExceptions;
pub use finding::{SiteRule, add_places, places_where};
pub use proceed_not_allowed::proceeds_not_allowed;
pub use shapes::shape_of;
pub use site::{BodySite, add_class_sites, add_interceptor_sites, sites_of};
pub use tables::BodyTables;
pub use unknown_body::unknown_bodies;

//! Sets of qualifiers, and which of them have which (Jakarta CDI 4.0, *Typesafe resolution*). Interceptor bindings are compared in
//! the same way (Jakarta Interceptors 2.1, *Interceptor Resolution*).
#![tactic(auto)]

pub mod laws;
pub mod order;
pub mod qualifier;
pub mod set;
pub mod types;

pub use qualifier::{Qualifier, QualifierMember};
pub use set::QualSet;
pub use types::{MemberType, QualifierType, QualifierTypes};

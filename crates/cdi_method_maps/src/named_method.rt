//! A method with its name.

use cdi_base::Name;
use cdi_machine::Method;

/// A business method by its name.
#[derive(Drop)]
pub struct NamedMethod {
    pub name: Name,
    pub method: Method,
}

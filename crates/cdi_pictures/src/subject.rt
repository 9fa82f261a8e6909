//! What a picture shows.
use cdi_deployment::Deployment;
use cdi_problems::Problem;
use cdi_resolve::BeanTables;

/// A deployment of which a picture is made.
#[derive(Clone, Copy)]
pub struct Pictured<'a> {
    pub deployment: &'a Deployment,
    /// The tables by which its points resolve. Without them no beans, points and interceptors are shown.
    pub tables: Option<&'a BeanTables>,
    pub problems: &'a [Problem],
}

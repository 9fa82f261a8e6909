//! What the problems of bodies are looked for with.
ghost use Rattle.std.specs.Prelude.{◌≡◌};

use crate::exceptions::DeclaredExceptions;
use cdi_bodies::Bodies;
use cdi_live::DeploymentTables;

/// The tables of a deployment with its exceptions, and the bodies that are registered.
#[derive(Clone, Copy)]
pub struct BodyTables<'a> {
    pub application: &'a DeploymentTables<'a>,
    pub exceptions: &'a DeclaredExceptions<'a>,
    pub bodies: &'a Bodies,
    pub ghost exceptions_are: { exceptions.now ≡ application.now.deployment.now.exceptions },
}

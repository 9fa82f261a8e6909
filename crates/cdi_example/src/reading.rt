//! Deployments that stand in the code.
use cdi_deploy::read;
use cdi_deployment::Deployment;
use std::alloc::Global;
use std::io;
use std::io::ErrorKind;

/// The end of a program that was written wrongly: its deployment can't be read, or has a problem.
pub(crate) fn wrong() -> io::Error {
    io::Error::from(ErrorKind::InvalidData)
}

/// The deployment that a text is.
pub(crate) fn deployment_of(alloc: Global, text: &[u8]) -> io::Result<Deployment> {
    match read(alloc, text) {
        Ok(deployment) => Ok(deployment),
        Err(_) => Err(wrong()),
    }
}

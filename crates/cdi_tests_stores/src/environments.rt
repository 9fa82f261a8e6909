//! The environments that lines name. One goes under the name of a request when that begins, under the name of a session (that session
//! alone) when a request begins in it, and under the name of either when it is asked for; and stays there, also once its contexts are
//! gone. Of the environments under one name the latest counts. Under `nowhere`, and each other word, is the one with no request and no
//! session.
use cdi_contexts::Env;
use std::alloc::{AllocError, Global};

/// The environment with no request and no session.
pub(crate) const NOWHERE: Env = Env {
    request: None,
    session: None,
};

/// An environment under a name.
#[derive(Drop)]
struct Known {
    name: String,
    env: Env,
}

/// Environments under names.
#[derive(Drop)]
pub(crate) struct Environments {
    known: Vec<Known>,
}

impl Environments {
    pub(crate) fn new(alloc: Global) -> Environments {
        Environments {
            known: Vec::new(alloc),
        }
    }

    /// Puts an environment under a name.
    pub(crate) fn add(&mut self, alloc: Global, name: &str, env: Env) -> Result<(), AllocError> {
        let name = String::from_str(alloc, name)?;
        Ok(self.known.push(Known { name, env })?)
    }

    /// The environment under a name.
    pub(crate) fn get(&self, name: &str) -> Env {
        for known in self.known.iter().rev() {
            if known.name.as_str() == name {
                return known.env;
            }
        }
        NOWHERE
    }

    /// The name of an environment, which is the latest if it has several.
    pub(crate) fn name_of(&self, env: Env) -> &str {
        if env == NOWHERE {
            return "nowhere";
        }
        for known in self.known.iter().rev() {
            if known.env == env {
                return known.name.as_str();
            }
        }
        "unnamed"
    }
}

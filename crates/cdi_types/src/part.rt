//! What a class declares, with the class.
use cdi_deployment::Class;
use std::marker::Model;

/// A field or a member, with the class that declares it.
#[derive(Drop)]
pub struct ClassPart<'a, T> {
    pub class: &'a Class,
    pub part: &'a T,
}

impl<'a, T> Model for ClassPart<'a, T> {
    ghost use Rattle.cdi_deployment.specs.declared.deployment.Class.{Class};

    ghost Value = { Class × T };

    ghost view = { λ p. (p.class.now, p.part.now) };
}

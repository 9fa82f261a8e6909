//! What a deployment declares, by name.
ghost use Rattle.std.specs.Prelude.{◌≡◌};
ghost use Rattle.cdi_name_check.specs.NameSets.{HasDeclared};
ghost use Rattle.cdi_name_check.specs.UnknownName as spec;

use crate::unknown_name::name_sets::NameSets;
use cdi_base::{BuiltIn, Name};
use cdi_deployment::Deployment;
use std::marker::Model;

/// The names that a deployment declares, which their owner lends. Contracts see the deployment; a question takes constant time.
#[derive(Drop)]
pub struct DeclaredNames<'a> {
    deployment: &'a Deployment,
    sets: &'a NameSets,
}

impl<'a> Model for DeclaredNames<'a> {
    ghost use Rattle.cdi_deployment.specs.declared.deployment.Deployment.{Deployment};
    ghost use Rattle.cdi_deployment.specs.contracts.deployment.Deployment as written;
    ghost use Rattle.cdi_name_check.specs.NameSets.{HasDeclared};

    ghost Value = { Deployment };

    ghost coded = { written.the_row.coded };

    ghost view = { λ names. names.deployment.now };

    ghost invariant = { λ names. HasDeclared names.deployment.now names.sets.now };
}

pub(super) fn is_built_in(built_in: BuiltIn, name: Name) -> bool
    ensures { result ≡ spec.is_built_in built_in name }
{
    built_in.name() == name
}

impl<'a> DeclaredNames<'a> {
    /// The names that a deployment declares, of which these are the sets.
    pub fn new(deployment: &'a Deployment, sets: &'a NameSets) -> DeclaredNames<'a>
        requires { HasDeclared deployment.now sets.now }
        ensures { result ≡ deployment.now }
    {
        DeclaredNames { deployment, sets }
    }

    /// The deployment.
    pub fn deployment(&self) -> &'a Deployment
        ensures { result.now ≡ self.now }
    {
        self.deployment
    }

    /// Whether a class may extend what has this name: `Object`, or a class of the deployment that isn't final.
    pub(super) fn is_extensible(&self, name: Name) -> bool
        ensures { result ≡ spec.is_extensible self.now name }
    {
        is_built_in(BuiltIn::Object, name) || self.sets.open_classes.contains(&name)
    }

    pub(super) fn is_interface(&self, name: Name) -> bool
        ensures { result ≡ spec.is_interface self.now name }
    {
        self.sets.interfaces.contains(&name)
    }

    fn is_class(&self, name: Name) -> bool
        ensures { result ≡ spec.is_class self.now name }
    {
        is_built_in(BuiltIn::Object, name)
            || is_built_in(BuiltIn::Startup, name)
            || is_built_in(BuiltIn::Shutdown, name)
            || self.sets.classes.contains(&name)
    }

    /// Whether a name is that of a class, declared or built in, or of an interface.
    pub fn is_type(&self, name: Name) -> bool
        ensures { result ≡ spec.is_type self.now name }
    {
        self.is_class(name) || self.is_interface(name)
    }

    /// Whether a name is that of a class of the deployment that is a bean.
    pub(super) fn is_bean_class(&self, name: Name) -> bool
        ensures { result ≡ spec.is_bean_class self.now name }
    {
        self.sets.bean_classes.contains(&name)
    }

    pub(super) fn is_interceptor(&self, name: Name) -> bool
        ensures { result ≡ spec.is_interceptor self.now name }
    {
        self.sets.interceptors.contains(&name)
    }

    /// Whether a name is that of a qualifier of the deployment.
    pub(super) fn is_declared_qualifier(&self, name: Name) -> bool
        ensures { result ≡ spec.is_declared self.now.qualifiers name }
    {
        self.sets.qualifiers.names.contains(&name)
    }

    /// Whether a qualifier of the deployment has a member.
    pub(super) fn has_declared_member(&self, qualifier: Name, name: Name) -> bool
        ensures { result ≡ spec.has_member self.now.qualifiers qualifier name }
    {
        self.sets.qualifiers.members.contains(&(qualifier, name))
    }

    pub(super) fn is_binding(&self, name: Name) -> bool
        ensures { result ≡ spec.is_declared self.now.bindings name }
    {
        self.sets.bindings.names.contains(&name)
    }

    /// Whether a binding has a member.
    pub(super) fn has_binding_member(&self, binding: Name, name: Name) -> bool
        ensures { result ≡ spec.has_member self.now.bindings binding name }
    {
        self.sets.bindings.members.contains(&(binding, name))
    }
}

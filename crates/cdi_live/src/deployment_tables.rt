//! The tables of a deployment.
ghost use Rattle.std.specs.Prelude.{◌≡◌};
ghost use Rattle.std.specs.Option.{option_copied};
ghost use Rattle.cdi_live.specs.PointProblems as spec;
ghost use Rattle.cdi_resolve.specs.Filters.{enabled_of};
ghost use Rattle.cdi_types.specs.Declarations.{declarations_of};
ghost use Rattle.cdi_types.specs.Line.{class_named};

use crate::live_tables::LiveTables;
use crate::resolved_points::ResolvedPoints;
use cdi_base::{Name, Use};
use cdi_deployment::{Class, Deployment};
use cdi_name_check::DeclaredNames;
use cdi_resolve::{BeanTables, Resolution};
use cdi_types::ClassIndex;

/// A deployment whose names and beans have no problem, with all the tables by which the last tier of its problems is looked for.
#[derive(Clone, Copy)]
pub struct DeploymentTables<'a> {
    pub deployment: &'a Deployment,
    pub names: &'a DeclaredNames<'a>,
    pub classes: &'a ClassIndex<'a>,
    /// What its bean list gives.
    pub beans: &'a BeanTables,
    pub live: &'a LiveTables<'a>,
    /// What its injection points resolve to.
    pub points: &'a ResolvedPoints<'a>,
    pub ghost names_are: { names.now ≡ deployment.now },
    pub ghost classes_are: { classes.now ≡ deployment.now.classes },
    pub ghost types_are: { beans.now.declared.types ≡ declarations_of deployment.now },
    pub ghost same_classes: { classes.now ≡ live.now.classes },
    pub ghost same_types: { beans.now.declared.types ≡ live.now.types },
    pub ghost same_beans: { enabled_of beans.now.resolver ≡ live.now.beans },
    pub ghost same_qualifiers: { points.now.qualifiers ≡ beans.now.declared.qualifiers },
    pub ghost same_enabled: { points.now.enabled ≡ live.now.beans },
    pub ghost same_interceptors: { beans.now.chains.interceptors ≡ live.now.interceptors },
}

impl<'a> DeploymentTables<'a> {
    /// The class of a name, if the deployment has it.
    pub fn class(&self, name: Name) -> Option<&'a Class>
        ensures { option_copied result ≡ class_named self.now.deployment.now.classes name }
    {
        self.classes.class(name)
    }

    /// What a type and qualifiers as they were written resolve to.
    pub fn resolve(&self, ty: Name, quals: &[Use]) -> Resolution
        ensures { result ≡ spec.resolved self.now.beans.now.declared.qualifiers self.now.live.now
            (record { ty = ty; quals = quals.now }) }
    {
        self.points.resolve(ty, quals)
    }
}

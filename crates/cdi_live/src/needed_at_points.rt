//! What is needed at injection points.
ghost use Rattle.std.specs.Prelude.{◌≡◌, ◌++◌, ◌∷◌, [], map, OnOk};
ghost use Rattle.std.specs.List.{filter_map, flat_map};
ghost use Rattle.std.specs.Option.{option_copied};
ghost use Rattle.cdi_live.specs.Points.{field_point};
ghost use Rattle.cdi_live.specs.Needs as spec;
ghost use Rattle.cdi_live.specs.OwnPoints as own;
ghost use Rattle.cdi_live.specs.Settings.{setting_of};

use crate::deployment_tables::DeploymentTables;
use crate::node::Node;
use cdi_base::{Name, Scope, Seq, Use};
use cdi_beans::Bean;
use cdi_deployment::{InjectedField, Member, Point};
use cdi_resolve::Resolution;
use cdi_types::ClassPart;
use std::alloc::AllocError;

/// Whether a bean has the dependent pseudo-scope.
pub(crate) fn is_dependent(bean: Option<&Bean>) -> bool
    ensures { result ≡ spec.is_dependent_bean (option_copied bean.entry) }
{
    match bean {
        Some(bean) => matches!(bean.scope, Scope::Dependent),
        None => false,
    }
}

/// The dependent bean that a type and qualifiers as they were written resolve to, if they do.
fn needed_at(tables: &DeploymentTables<'_>, ty: Name, quals: &[Use]) -> Option<Node>
    ensures { result
        ≡ spec.needed_at (setting_of tables.now) (record { ty = ty; quals = quals.now }) }
{
    match tables.resolve(ty, quals) {
        Resolution::One(bean) => {
            if is_dependent(tables.beans.resolver.bean(bean)) {
                Some(Node::Bean(bean))
            } else {
                None
            }
        }
        _ => None,
    }
}

/// Adds what a type and qualifiers need.
fn add_needed(
    tables: &DeploymentTables<'_>,
    ty: Name,
    quals: &[Use],
    needs: &mut Seq<Node>,
) -> Result<(), AllocError>
    ensures { OnOk result (needs.new ≡ needs.old ++ filter_map
        (spec.needed_at (setting_of tables.now)) (record { ty = ty; quals = quals.now } ∷ [])) }
{
    match needed_at(tables, ty, quals) {
        Some(node) => {
            needs.push(node)?;
            Ok(())
        }
        None => Ok(()),
    }
}

/// Adds what parameters need.
pub(crate) fn add_params(
    tables: &DeploymentTables<'_>,
    params: &[Point],
    needs: &mut Seq<Node>,
) -> Result<(), AllocError>
    ensures { OnOk result (needs.new
        ≡ needs.old ++ filter_map (spec.needed_at (setting_of tables.now)) params.now) }
{
    for point in params {
        add_needed(tables, point.ty, point.quals.as_slice(), needs)?;
    }
    Ok(())
}

/// Adds what injected fields need.
pub(crate) fn add_fields(
    tables: &DeploymentTables<'_>,
    fields: &[InjectedField],
    needs: &mut Seq<Node>,
) -> Result<(), AllocError>
    ensures { OnOk result (needs.new ≡ needs.old
        ++ filter_map (spec.needed_at (setting_of tables.now)) (map field_point fields.now)) }
{
    for field in fields {
        add_needed(tables, field.ty, field.quals.as_slice(), needs)?;
    }
    Ok(())
}

/// Adds what the parameters of a member need, if it is an initializer.
fn add_initializer(
    tables: &DeploymentTables<'_>,
    member: &ClassPart<'_, Member>,
    needs: &mut Seq<Node>,
) -> Result<(), AllocError>
    ensures { OnOk result (needs.new ≡ needs.old ++ filter_map
        (spec.needed_at (setting_of tables.now)) (own.initializer_points member.now)) }
{
    match member.part {
        Member::Initializer(initializer) => {
            add_params(tables, initializer.params.as_slice(), needs)
        }
        _ => Ok(()),
    }
}

/// Adds what the initializers among the members of a bean need.
pub(crate) fn add_initializers(
    tables: &DeploymentTables<'_>,
    members: &[ClassPart<'_, Member>],
    needs: &mut Seq<Node>,
) -> Result<(), AllocError>
    ensures { OnOk result (needs.new ≡ needs.old ++ filter_map
        (spec.needed_at (setting_of tables.now)) (flat_map own.initializer_points members.now)) }
{
    for member in members {
        add_initializer(tables, member, needs)?;
    }
    Ok(())
}

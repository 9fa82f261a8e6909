//! What the injected fields of classes need.
ghost use Rattle.std.specs.Prelude.{◌≡◌, ◌++◌, map, IfOk, OnOk};
ghost use Rattle.std.specs.List.{flat_map};
ghost use Rattle.cdi_live.specs.FieldNeeds as spec;
ghost use Rattle.cdi_live.specs.Settings.{setting_of};

use crate::deployment_tables::DeploymentTables;
use crate::needed_at_points::add_fields;
use crate::node::Node;
use cdi_base::{Name, Seq};
use cdi_deployment::Class;
use std::alloc::{AllocError, Global};
use std::collections::HashMap;

/// What the injected fields need that each class of a deployment declares. A bean has the fields of its superclasses too, so that many
/// beans may have those of one class: what they need is found once.
#[derive(Drop)]
pub(crate) struct FieldNeeds {
    lists: HashMap<Name, Seq<Node>>,
}

/// What the injected fields of a class need.
fn needs_of_fields(
    alloc: Global,
    tables: &DeploymentTables<'_>,
    class: &Class,
) -> Result<Seq<Node>, AllocError>
    ensures { IfOk result (λ needs. needs
        ≡ spec.needs_of_fields (setting_of tables.now) class.now) }
{
    let mut needs = Seq::empty(alloc);
    add_fields(tables, class.inject.as_slice(), &mut needs)?;
    Ok(needs)
}

/// Adds nodes to what is needed.
fn add_nodes(nodes: &[Node], needs: &mut Seq<Node>) -> Result<(), AllocError>
    ensures { OnOk result (needs.new ≡ needs.old ++ nodes.now) }
{
    for node in nodes {
        needs.push(*node)?;
    }
    Ok(())
}

impl FieldNeeds {
    /// What the injected fields of all classes of a deployment need. Of classes with one name, the first one counts.
    pub(crate) fn build(
        alloc: Global,
        tables: &DeploymentTables<'_>,
    ) -> Result<FieldNeeds, AllocError>
        ensures { IfOk result (spec.AreFieldNeeds (setting_of tables.now)) }
    {
        let mut lists = HashMap::new(alloc);
        for class in tables.deployment.classes.as_slice() {
            if !lists.contains_key(&class.name) {
                lists.insert(class.name, needs_of_fields(alloc, tables, class)?)?;
            }
        }
        Ok(FieldNeeds { lists })
    }

    /// What the injected fields of a class need.
    fn of(&self, class: Name) -> &[Node]
        ensures { result.now ≡ spec.list_of self.now class }
    {
        match self.lists.get(&class) {
            Some(nodes) => nodes.as_slice(),
            None => &[],
        }
    }

    /// Adds what the injected fields of some classes need.
    pub(crate) fn add_of(&self, classes: &[&Class], needs: &mut Seq<Node>) -> Result<(), AllocError>
        ensures { OnOk result (needs.new ≡ needs.old
            ++ flat_map (λ c. spec.list_of self.now c.name) (map (λ c. c.now) classes.now)) }
    {
        for class in classes {
            add_nodes(self.of(class.name), needs)?;
        }
        Ok(())
    }
}

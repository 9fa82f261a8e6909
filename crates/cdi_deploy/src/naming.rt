//! The table of the names of a deployment.
ghost use Rattle.std.specs.Prelude.{◌≡◌};
ghost use Rattle.cdi_base.specs.Reading.{Gives};
ghost use Rattle.serde_json.specs.View.{view, items_view, members_view};
ghost use Rattle.cdi_deploy.specs.Naming as spec;

use crate::fault::ReadFault;
use cdi_base::{Names, OrMemory, TableFull, is_name};
use cdi_form::form::{Kind, Part, named_part, part_at};
use cdi_form::keys::kind_of;
use serde_json::{Map, Value};

/// Adds a name. What isn't one was refused before, so the test only tells [`Names::intern`] so.
#[tactic(auto, unfolding(crate::specs::Naming::added))]
fn add_name(names: &mut Names, text: &str) -> Result<(), OrMemory<ReadFault>>
    ensures { Gives (λ _. names.new) result (spec.added names.old text.now) }
{
    if !is_name(text) {
        return Ok(());
    }
    match names.intern(text) {
        Ok(_) => Ok(()),
        Err(OrMemory::Fault(TableFull)) => Err(OrMemory::Fault(ReadFault::TooMany)),
        Err(OrMemory::Memory) => Err(OrMemory::Memory),
    }
}

fn add_text(part: Part, names: &mut Names, text: &str) -> Result<(), OrMemory<ReadFault>>
    ensures { Gives (λ _. names.new) result (spec.text_added part names.old text.now) }
{
    match part {
        Part::Name | Part::Use => add_name(names, text),
        _ => Ok(()),
    }
}

/// Adds the keys of the members in a use.
fn add_keys(names: &mut Names, members: &Map<String, Value>) -> Result<(), OrMemory<ReadFault>>
    ensures { Gives (λ _. names.new) result
        (spec.keys_added names.old (members_view members.now.entries)) }
{
    for (key, _) in members.iter() {
        add_name(names, key.as_str())?;
    }
    Ok(())
}

/// Adds the texts in the places of names, in a value at a part, to a table.
#[cycle(naming)]
pub(crate) fn add_names(
    names: &mut Names,
    value: &Value,
    part: Part,
) -> Result<(), OrMemory<ReadFault>>
    ensures { Gives (λ _. names.new) result
        (spec.names_added names.old (view value.now) part) }
{
    match value {
        Value::String(text) => add_text(part, names, text.as_str()),
        Value::Array(items) => match named_part(part) {
            Some(inner) => add_items(names, items, inner),
            None => Ok(()),
        },
        Value::Object(members) => match part {
            Part::Use => add_keys(names, members),
            _ => match kind_of(part, members) {
                Some(kind) => add_members(names, members, kind),
                None => Ok(()),
            },
        },
        _ => Ok(()),
    }
}

#[cycle(naming)]
fn add_items(names: &mut Names, items: &Vec<Value>, part: Part) -> Result<(), OrMemory<ReadFault>>
    ensures { Gives (λ _. names.new) result
        (spec.items_added names.old (items_view items.now.items) part) }
{
    for item in items {
        add_names(names, item, part)?;
    }
    Ok(())
}

#[cycle(naming)]
fn add_members(
    names: &mut Names,
    members: &Map<String, Value>,
    kind: Kind,
) -> Result<(), OrMemory<ReadFault>>
    ensures { Gives (λ _. names.new) result
        (spec.members_added names.old (members_view members.now.entries) kind) }
{
    for (key, member) in members.iter() {
        let Some(part) = part_at(kind, key.as_str()) else {
            continue;
        };
        add_names(names, member, part)?;
    }
    Ok(())
}

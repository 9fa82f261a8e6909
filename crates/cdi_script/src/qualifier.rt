//! Uses of qualifiers, read from JSON.
ghost use Rattle.std.specs.Prelude.{◌≡◌, Some};
ghost use Rattle.cdi_base.specs.Name.{Extends};
ghost use Rattle.cdi_base.specs.Reading.{Gives};
ghost use Rattle.serde_json.specs.View.{view, members_view};
ghost use Rattle.cdi_script.specs.Qualifier as spec;

use crate::fault::ScriptFault;
use crate::reading::{Item, bad, is_named};
use cdi_base::{Names, OrMemory, TableFull, Use, WrittenUse, is_name};
use cdi_form::{Form, is_use};
use serde_json::{Map, Value as Json};
use std::alloc::Global;

fn has_named_keys(members: &Map<String, Json>) -> bool
    ensures { result ≡ spec.has_named_keys (members_view members.now.entries) }
{
    for (key, _) in members.iter() {
        if !is_name(key.as_str()) {
            return false;
        }
    }
    true
}

fn are_use_names(name: &Json, members: &Json) -> bool
    ensures { result ≡ spec.are_use_names (view name.now) (view members.now) }
{
    match members {
        Json::Object(members) => is_named(name) && has_named_keys(members),
        _ => false,
    }
}

fn has_use_names(value: &Json) -> bool
    ensures { result ≡ spec.has_use_names (view value.now) }
{
    match value {
        Json::String(text) => is_name(text.as_str()),
        Json::Array(items) => match items.as_slice() {
            [] => false,
            [_] => false,
            [name, members] => are_use_names(name, members),
            [_, _, _, ..] => false,
        },
        _ => false,
    }
}

fn is_qualifier(value: &Json) -> bool
    ensures { result ≡ spec.is_qualifier (view value.now) }
{
    is_use(value) && has_use_names(value)
}

fn named_use(
    alloc: Global,
    names: &mut Names,
    written: &WrittenUse,
) -> Result<Use, OrMemory<ScriptFault>>
    ensures gives { Gives (λ u. (u, names.new)) result
        (spec.named_use names.old (Some written.now)) }
    ensures kept { Extends names.old names.new }
{
    if !written.has_names() {
        return bad();
    }
    match names.intern_use(alloc, written) {
        Ok(named) => Ok(named),
        Err(OrMemory::Fault(TableFull)) => Err(OrMemory::Fault(ScriptFault::Full)),
        Err(OrMemory::Memory) => Err(OrMemory::Memory),
    }
}

fn qualifier_of(
    alloc: Global,
    names: &mut Names,
    value: &Json,
) -> Result<Use, OrMemory<ScriptFault>>
    ensures gives { Gives (λ u. (u, names.new)) result
        (spec.qualifier_of names.old (view value.now)) }
    ensures kept { Extends names.old names.new }
{
    let Some(written) = WrittenUse::read(alloc, value)? else {
        return bad();
    };
    named_use(alloc, names, &written)
}

impl Item for Use {
    ghost test = { spec.is_qualifier };

    ghost form = { spec.qualifier_of };

    fn is_in(value: &Json) -> bool {
        is_qualifier(value)
    }

    fn read(alloc: Global, names: &mut Names, value: &Json) -> Result<Use, OrMemory<ScriptFault>> {
        qualifier_of(alloc, names, value)
    }
}

//! What is read of a value whose names all stand in a table: names, uses and lists. All that may be missing, and all that
//! a list holds, is read by one way each.
ghost use Rattle.std.specs.Prelude.{◌≡◌, ℕ, List, IfOk, map, option_map};
ghost use Rattle.serde_json.specs.Data.{Data};
ghost use Rattle.serde_json.specs.View.{view, items_view};
ghost use Rattle.cdi_deploy.specs.Items as spec;
ghost use Rattle.cdi_deploy.specs.Items.{name_in, names_in, use_in_table};

use crate::parts::{list_at, list_in, text_at, text_in};
use cdi_base::{MemberValue, Name, Names, Seq, Text, Use, WrittenMember, WrittenUse};
use cdi_form::Form;
use serde_json::Value as Json;
use std::alloc::{AllocError, Global};

/// What a value of the right form stands for.
pub(crate) trait Item: Sized + Drop {
    ghost form: { List (List ℕ) → Data → Self };

    fn read(alloc: Global, names: &Names, value: &Json) -> Result<Self, AllocError>
        ensures { IfOk result (λ item. item ≡ form names.now (view value.now)) };
}

fn each<T: Item>(alloc: Global, names: &Names, values: &[Json]) -> Result<Seq<T>, AllocError>
    ensures { IfOk result (λ items. items ≡ spec.each (T.form names.now) (items_view values.now)) }
{
    let mut items = Vec::new(alloc);
    for value in values {
        items.push(T::read(alloc, names, value)?)?;
    }
    Ok(Seq::new(items))
}

/// The items of the array at a key, none where it is missing.
pub(crate) fn each_at<T: Item>(
    alloc: Global,
    names: &Names,
    value: &Json,
    key: &str,
) -> Result<Seq<T>, AllocError>
    ensures { IfOk result
        (λ items. items ≡ spec.each_at (T.form names.now) key.now (view value.now)) }
{
    each::<T>(alloc, names, list_at(value, key))
}

/// What stands at a key, if it is there.
pub(crate) fn maybe_at<T: Item>(
    alloc: Global,
    names: &Names,
    value: &Json,
    key: &str,
) -> Result<Option<T>, AllocError>
    ensures { IfOk result
        (λ item. item ≡ spec.maybe_at (T.form names.now) key.now (view value.now)) }
{
    match value.get(key) {
        Some(found) => Ok(Some(T::read(alloc, names, found)?)),
        None => Ok(None),
    }
}

/// The name at a key.
pub(crate) fn name_at(names: &Names, value: &Json, key: &str) -> Name
    ensures { result ≡ spec.name_at names.now key.now (view value.now) }
{
    names.name_for(text_at(value, key))
}

impl Item for Name {
    ghost form = { name_in };

    fn read(_alloc: Global, names: &Names, value: &Json) -> Result<Name, AllocError> {
        Ok(names.name_for(text_in(value)))
    }
}

impl Item for Seq<Name> {
    ghost form = { names_in };

    fn read(alloc: Global, names: &Names, value: &Json) -> Result<Seq<Name>, AllocError> {
        each::<Name>(alloc, names, list_in(value))
    }
}

fn member_values(
    alloc: Global,
    names: &Names,
    members: &[WrittenMember],
) -> Result<Seq<MemberValue>, AllocError>
    ensures { IfOk result (λ values. values ≡ map (spec.member_value names.now) members.now) }
{
    let mut values = Vec::new(alloc);
    for member in members {
        let name = names.name_for(member.name.as_str());
        let value = member.value.clone()?;
        values.push(MemberValue { name, value })?;
    }
    Ok(Seq::new(values))
}

/// A use with the numbers of its names.
fn numbered(alloc: Global, names: &Names, written: &WrittenUse) -> Result<Use, AllocError>
    ensures { IfOk result (λ u. u ≡ spec.numbered names.now written.now) }
{
    let name = names.name_for(written.name.as_str());
    let members = member_values(alloc, names, written.members.as_slice())?;
    Ok(Use { name, members })
}

/// What stands for a use where a value is none.
fn nameless(alloc: Global) -> WrittenUse
    ensures { result ≡ spec.nameless }
{
    WrittenUse {
        name: Text::new(String::new(alloc)),
        members: Seq::empty(alloc),
    }
}

impl Item for Use {
    ghost form = { use_in_table };

    fn read(alloc: Global, names: &Names, value: &Json) -> Result<Use, AllocError> {
        match WrittenUse::read(alloc, value)? {
            Some(written) => numbered(alloc, names, &written),
            None => numbered(alloc, names, &nameless(alloc)),
        }
    }
}

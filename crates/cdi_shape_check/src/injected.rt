//! Injected fields by their names.
ghost use Rattle.std.specs.Prelude.{◌≡◌, ◌==◌, ◌++◌, ℕ, position, nat_eq, IfOk, OnOk};
ghost use Rattle.std.specs.HashMap.{get};
ghost use Rattle.std.specs.Option.{option_copied};
ghost use Rattle.cdi_shape_check.specs.OwnParts.{injected_field};

use cdi_base::{Name, Seq};
use cdi_deployment::InjectedField;
use std::alloc::{AllocError, Global};
use std::collections::HashMap;
use std::marker::Model;

/// An injected field. Contracts see the field itself.
#[derive(Drop)]
pub(crate) struct LentField<'a> {
    field: &'a InjectedField,
}

impl<'a> Model for LentField<'a> {
    ghost use Rattle.cdi_deployment.specs.declared.deployment.InjectedField.{InjectedField};

    ghost Value = { InjectedField };

    ghost view = { λ f. f.field.now };
}

/// Injected fields, found by their names in constant time. Contracts see their list.
#[derive(Drop)]
pub(crate) struct InjectedFields<'a> {
    fields: Seq<LentField<'a>>,
    places: HashMap<Name, usize>,
}

impl<'a> Model for InjectedFields<'a> {
    ghost use Rattle.std.specs.Prelude.{List, ◌≡◌, ◌==◌, ℕ, position, nat_eq};
    ghost use Rattle.std.specs.HashMap.{get};
    ghost use Rattle.cdi_deployment.specs.declared.deployment.InjectedField.{InjectedField};

    ghost Value = { List InjectedField };

    ghost view = { λ t. t.fields };

    ghost invariant = { λ t. (name : ℕ)
        → get nat_eq t.places name ≡ position (λ f. f.name == name) t.fields };
}

/// Adds injected fields to others.
pub(crate) fn add_fields<'a>(
    fields: &'a [InjectedField],
    found: &mut Seq<LentField<'a>>,
) -> Result<(), AllocError>
    ensures { OnOk result (found.new ≡ found.old ++ fields.now) }
{
    for field in fields {
        found.push(LentField { field })?;
    }
    Ok(())
}

/// The place of the first field of each name.
fn places_of(alloc: Global, fields: &[LentField<'_>]) -> Result<HashMap<Name, usize>, AllocError>
    ensures { IfOk result (λ places. (name : ℕ)
        → get nat_eq places name ≡ position (λ f. f.name == name) fields.now) }
{
    let mut places = HashMap::new(alloc);
    for (place, lent) in fields.iter().enumerate() {
        let name = lent.name();
        if !places.contains_key(&name) {
            places.insert(name, place)?;
        }
    }
    Ok(places)
}

impl<'a> LentField<'a> {
    fn name(&self) -> Name
        ensures { result ≡ self.now.name }
    {
        self.field.name
    }

    fn field(&self) -> &'a InjectedField
        ensures { result.now ≡ self.now }
    {
        self.field
    }
}

impl<'a> InjectedFields<'a> {
    /// The injected fields of an interceptor.
    pub(crate) fn of(
        alloc: Global,
        fields: &'a [InjectedField],
    ) -> Result<InjectedFields<'a>, AllocError>
        ensures { IfOk result (λ injected. injected ≡ fields.now) }
    {
        let mut found = Seq::empty(alloc);
        add_fields(fields, &mut found)?;
        InjectedFields::build(alloc, found)
    }

    /// These fields.
    pub(crate) fn build(
        alloc: Global,
        fields: Seq<LentField<'a>>,
    ) -> Result<InjectedFields<'a>, AllocError>
        ensures { IfOk result (λ injected. injected ≡ fields.entry) }
    {
        let places = places_of(alloc, fields.as_slice())?;
        Ok(InjectedFields { fields, places })
    }

    /// The field of a name, if there is one. If several have it, the first one counts.
    pub(crate) fn field(&self, name: Name) -> Option<&'a InjectedField>
        ensures { option_copied result ≡ injected_field name self.now }
    {
        let place = self.places.get(&name).copied()?;
        match self.fields.get(place) {
            Some(lent) => Some(lent.field()),
            None => None,
        }
    }
}

//! The types of beans.
ghost use Rattle.std.specs.Prelude.{◌≡◌, ◌==◌, ◌↔◌, IsTrue};
ghost use Rattle.std.specs.List.{list_any};
ghost use Rattle.cdi_bean_check.specs.BeanTypes as spec;

use cdi_base::{BuiltIn, Name, Seq};
use cdi_deployment::Class;
use cdi_types::TypeTable;

fn lists(typed: &[Name], ty: Name) -> bool
    ensures { result ≡ list_any (λ t. t == ty) typed.now }
{
    typed.iter().any(|other| *other == ty)
}

/// Whether a restriction leaves a type (Jakarta CDI 4.0, *Restricting the bean types of a bean*).
pub fn is_left(typed: &Option<Seq<Name>>, ty: Name) -> bool
    ensures { result ≡ spec.is_left typed.now ty }
{
    match typed {
        Some(typed) => ty == BuiltIn::Object.name() || lists(typed.as_slice(), ty),
        None => true,
    }
}

/// Whether what has a type, and is restricted so, has another type too (Jakarta CDI 4.0, *Restricting the bean types of a bean*).
pub fn is_bean_type(types: &TypeTable, of: Name, typed: &Option<Seq<Name>>, ty: Name) -> bool
    ensures { IsTrue result ↔ spec.IsBeanType types.now of typed.now ty }
{
    types.is_subtype(of, ty) && is_left(typed, ty)
}

/// Whether a type is one of the bean types of a class (Jakarta CDI 4.0, *Bean types*).
pub fn is_type_of_class(types: &TypeTable, class: &Class, ty: Name) -> bool
    ensures { IsTrue result ↔ spec.IsTypeOfClass types.now class.now ty }
{
    match &class.bean {
        Some(bean) => is_bean_type(types, class.name, &bean.typed, ty),
        None => is_bean_type(types, class.name, &None, ty),
    }
}

//! Which beans are left at a step of resolution.
ghost use Rattle.std.specs.Prelude.{◌≡◌};
ghost use Rattle.cdi_resolve.specs.Filters as filters;
ghost use Rattle.cdi_resolve.specs.Narrowing as spec;

use crate::required::Required;
use cdi_base::Name;
use cdi_beans::Bean;
use cdi_quals::Qualifier;

/// What beans are left, of those that have what is asked for.
#[derive(Clone, Copy)]
pub(crate) enum Left {
    /// All of them.
    Eligible,
    /// Alternatives, and what alternatives declare.
    Alternatives,
    /// Those of them with this priority.
    WithPriority(i64),
}

/// Whether a bean has a priority.
fn has_priority(bean: &Bean, priority: i64) -> bool
    ensures { result ≡ filters.has_priority priority bean.now }
{
    match bean.priority {
        Some(own) => own == priority,
        None => false,
    }
}

/// Whether a bean has a type.
fn has_type(bean: &Bean, ty: Name) -> bool
    ensures { result ≡ filters.has_type ty bean.now }
{
    bean.types.iter().any(|own| *own == ty)
}

/// Whether a bean has a type, if one is asked for.
fn has_asked_type(bean: &Bean, ty: Option<Name>) -> bool
    ensures { result ≡ spec.has_asked_type ty bean.now }
{
    match ty {
        Some(ty) => has_type(bean, ty),
        None => true,
    }
}

/// Whether a bean has a type, if one is asked for, and the required qualifiers.
fn has_asked(bean: &Bean, ty: Option<Name>, required: &Required<'_>, default: &Qualifier) -> bool
    requires { default.now ≡ filters.default }
    ensures { result ≡ spec.has_asked ty (filters.required_of required.now) bean.now }
{
    has_asked_type(bean, ty) && required.is_had_by(&bean.qualifiers, default)
}

/// Whether a bean has what is asked for, and is left of those that do.
pub(crate) fn passes(
    bean: &Bean,
    ty: Option<Name>,
    required: &Required<'_>,
    default: &Qualifier,
    left: Left,
) -> bool
    requires { default.now ≡ filters.default }
    ensures { result ≡ spec.passes ty (filters.required_of required.now) left bean.now }
{
    match left {
        Left::Eligible => has_asked(bean, ty, required, default),
        Left::Alternatives => bean.alternative && has_asked(bean, ty, required, default),
        Left::WithPriority(priority) => {
            bean.alternative
                && has_priority(bean, priority)
                && has_asked(bean, ty, required, default)
        }
    }
}

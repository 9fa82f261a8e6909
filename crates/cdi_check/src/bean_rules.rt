//! Problems of beans that are enabled.
ghost use Rattle.std.specs.Prelude.{◌≡◌, ◌&&◌, IsTrue};
ghost use Rattle.std.specs.List.{list_any};
ghost use Rattle.cdi_check.specs.BeanRules as spec;
ghost use Rattle.cdi_resolve.specs.Filters.{is_bean_of};

use cdi_base::Name;
use cdi_enable::EnabledSet;
use cdi_live::LiveTables;
use cdi_plans::Chains;
use cdi_problems::{Element, Rule};
use cdi_resolve::EnabledBean;

/// Two enabled beans specialize the bean of a class (Jakarta CDI 4.0, *Inconsistent specialization*).
#[derive(Clone, Copy)]
pub(crate) struct InconsistentSpecialization<'a> {
    pub(crate) enabled: &'a EnabledSet,
}

/// An enabled bean of a final class has an interceptor in one of its chains (Jakarta CDI 4.0, *Interceptor resolution*).
#[derive(Clone, Copy)]
pub(crate) struct FinalIntercepted<'a> {
    pub(crate) live: &'a LiveTables<'a>,
    pub(crate) chains: &'a Chains,
}

/// Whether a bean is a managed one of a class, and intercepted.
fn is_intercepted_bean_of(chains: &Chains, class: Name, bean: &EnabledBean<'_>) -> bool
    ensures { result ≡ (is_bean_of class bean.now && spec.is_intercepted chains.now bean.now.1) }
{
    bean.is_of(class) && chains.is_intercepted(bean.bean())
}

/// Whether an enabled managed bean of a class is intercepted.
fn has_intercepted_bean(chains: &Chains, beans: &[EnabledBean<'_>], class: Name) -> bool
    ensures { result ≡ list_any
        (λ b. is_bean_of class b && spec.is_intercepted chains.now b.1) beans.now }
{
    beans
        .iter()
        .any(|bean| is_intercepted_bean_of(chains, class, bean))
}

impl Rule for InconsistentSpecialization<'_> {
    ghost use Rattle.cdi_check.specs.BeanRules.{HasInconsistentSpecialization};

    ghost holds_at = { λ rule e. HasInconsistentSpecialization rule.enabled.now e };

    fn holds(&self, element: &Element<'_>) -> bool {
        match element {
            Element::Class { class, .. } => self.enabled.inconsistent_class(class.name),
            _ => false,
        }
    }
}

impl Rule for FinalIntercepted<'_> {
    ghost use Rattle.cdi_check.specs.BeanRules.{HasFinalIntercepted};

    ghost holds_at = { λ rule e. HasFinalIntercepted rule.live.now rule.chains.now e };

    fn holds(&self, element: &Element<'_>) -> bool {
        match element {
            Element::Class { class, .. } => {
                class.is_final && has_intercepted_bean(self.chains, self.live.beans(), class.name)
            }
            _ => false,
        }
    }
}

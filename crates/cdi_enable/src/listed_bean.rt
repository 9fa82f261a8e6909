//! A bean of a bean list, as far as it tells which managed bean decides whether it is enabled.
ghost use Rattle.std.specs.Prelude.{◌≡◌};
ghost use Rattle.cdi_enable.specs.Enablement as spec;

use cdi_base::Name;
use cdi_beans::Bean;

/// Where a bean is declared.
#[derive(Clone, Copy, Debug, PartialEq, Eq)]
pub struct ListedBean {
    /// The class that declares it: that of a managed bean, or the one that has the producer.
    pub class: Name,
    /// Whether it is the managed bean of that class, and no product.
    pub is_managed: bool,
}

/// Where a bean of a bean list is declared.
pub(crate) fn listed_bean(bean: &Bean) -> ListedBean
    ensures { result ≡ spec.listed_bean bean.now }
{
    ListedBean {
        class: bean.class,
        is_managed: bean.is_managed(),
    }
}

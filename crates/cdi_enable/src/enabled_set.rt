//! The enabled ones of the beans of a bean list.
ghost use Rattle.std.specs.Prelude.{◌≡◌, ◌↔◌, IsTrue, IfOk};
ghost use Rattle.cdi_enable.specs.Enabled.{IsForest};
ghost use Rattle.cdi_enable.specs.Enablement as spec;

use crate::class_places::ClassPlaces;
use crate::enabled_managed::EnabledManaged;
use crate::listed_bean::ListedBean;
use crate::managed_beans::{listed_beans, managed_beans, managed_classes};
use cdi_base::{Name, Seq};
use cdi_beans::BeanList;
use std::alloc::{AllocError, Global};
use std::marker::Model;

/// The enabled ones of the beans of a bean list (Jakarta CDI 4.0, *Enabled and disabled beans*). Contracts see what of the list
/// decides which they are.
///
/// For m managed beans among n, and s names in the list of the selected ones, it is made in time in proportion to n + m s + m³ / 64;
/// asking whether a bean is enabled takes constant time.
pub struct EnabledSet {
    classes: ClassPlaces,
    managed: EnabledManaged,
    beans: Seq<ListedBean>,
}

/// In one call, so that the proof of each function that owns such a set has one step here, and not one for each of its parts.
impl Drop for EnabledSet {
    fn drop(self) {
        let Self {
            classes: _classes,
            managed: _managed,
            beans: _beans,
        } = self;
    }
}

impl Model for EnabledSet {
    ghost use Rattle.cdi_enable.specs.Enablement.{Enablement};

    ghost Value = { Enablement };

    ghost view = { λ s. record { classes = s.classes; managed = s.managed; beans = s.beans } };
}

/// The enabled ones of the beans of a list, no managed bean of which specializes itself, directly or through others.
pub fn enabled(alloc: Global, list: &BeanList) -> Result<EnabledSet, AllocError>
    requires { IsForest (spec.enablement_of list.now).managed }
    ensures { IfOk result (λ set. set ≡ spec.enablement_of list.now) }
{
    let beans = list.beans.as_slice();
    let classes = ClassPlaces::build(alloc, managed_classes(alloc, beans)?)?;
    let managed = managed_beans(alloc, beans, &classes, list.selected.as_slice())?;
    Ok(EnabledSet {
        classes,
        managed: EnabledManaged::build(alloc, managed)?,
        beans: listed_beans(alloc, beans)?,
    })
}

impl EnabledSet {
    /// Whether a bean of the list is enabled, by its index. A managed bean is if no enabled bean specializes it, directly or through
    /// others, and it is no alternative or a selected one; a product is if the managed bean of the class that declares it is. There is
    /// none past the last.
    pub fn contains(&self, bean: usize) -> bool
        ensures { spec.IsEnabled self.now bean result }
    {
        match self.beans.get(bean) {
            Some(bean) => self.contains_class(bean.class),
            None => false,
        }
    }

    /// Whether the managed bean of a class is enabled. A class without one has none that is.
    pub fn contains_class(&self, class: Name) -> bool
        ensures { spec.IsEnabledClass self.now class result }
    {
        match self.classes.bean_of(class) {
            Some(bean) => self.managed.contains(bean),
            None => false,
        }
    }

    /// Whether two enabled beans specialize the managed bean of a class (Jakarta CDI 4.0, *Inconsistent specialization*). A class
    /// without one never is so.
    pub fn inconsistent_class(&self, class: Name) -> bool
        ensures { IsTrue result
            ↔ spec.IsInconsistentBean self.now (spec.bean_of_class self.now.classes class) }
    {
        match self.classes.bean_of(class) {
            Some(bean) => self.managed.inconsistent(bean),
            None => false,
        }
    }

    /// A bean of the list by its index among the managed beans, if it is one.
    fn managed_index(&self, bean: &ListedBean) -> Option<usize>
        ensures { result ≡ spec.managed_index self.now.classes bean.now }
    {
        if !bean.is_managed {
            return None;
        }
        self.classes.bean_of(bean.class)
    }

    /// Whether two enabled beans specialize a managed bean, which is told by its index in the list (Jakarta CDI 4.0, *Inconsistent
    /// specialization*). Of a product, and past the last bean, it never is so. It goes through the managed beans.
    pub fn inconsistent(&self, bean: usize) -> bool
        ensures { IsTrue result ↔ spec.IsInconsistent self.now bean }
    {
        let Some(listed) = self.beans.get(bean) else {
            return false;
        };
        match self.managed_index(listed) {
            Some(managed) => self.managed.inconsistent(managed),
            None => false,
        }
    }

    /// For each bean of the list, in order, whether it is enabled.
    pub fn flags(&self, alloc: Global) -> Result<Seq<bool>, AllocError>
        ensures { IfOk result (spec.AreFlags self.now) }
    {
        let mut flags = Seq::empty(alloc);
        for bean in self.beans.as_slice() {
            flags.push(self.contains_class(bean.class))?;
        }
        Ok(flags)
    }
}

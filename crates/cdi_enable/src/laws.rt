//! Laws of enablement, over the definitions alone.
ghost use Rattle.std.specs.Prelude.{◌≡◌, ◌↔◌, ◌<◌, ◌≤◌, ◌++◌, ℕ, List, Bool, true, length};
ghost use Rattle.cdi_beans.specs.Problems.{IsMadeOf};
ghost use Rattle.cdi_beans.specs.declared.bean.BeanList.{BeanList};
ghost use Rattle.cdi_deployment.specs.declared.deployment.Deployment.{Deployment};
ghost use Rattle.cdi_enable.specs.Enabled.{Enabled, IsForest, Specializes};
ghost use Rattle.cdi_enable.specs.Enablement.{enablement_of};
ghost use Rattle.cdi_enable.specs.declared.managed_bean.ManagedBean.{ManagedBean};

/// A bean is enabled or it isn't.
pub fn law_one_answer()
    ensures { (beans : List ManagedBean) (bean : ℕ) (r s : Bool)
        → Enabled beans bean r → Enabled beans bean s → r ≡ s }
{}

/// The managed beans of a deployment without problems of names or beans are a forest: a bean that specializes another extends its
/// class, and no class is its own superclass. So the enabled ones of its bean list can be told.
pub fn law_forest()
    ensures { (d : Deployment) (list : BeanList)
        → IsMadeOf d list → IsForest (enablement_of list).managed }
{}

/// Where beans are added, a bean is enabled as before, unless an added one that is enabled specializes it, directly or through
/// others.
pub fn law_added_beans()
    ensures { (beans more : List ManagedBean) → IsForest beans → IsForest (beans ++ more)
        → (bean : ℕ) → bean < length beans
        → ((x : ℕ) → length beans ≤ x → Specializes (beans ++ more) x bean
        → Enabled (beans ++ more) x true → ⊥)
        → (r : Bool) → Enabled beans bean r ↔ Enabled (beans ++ more) bean r }
{}

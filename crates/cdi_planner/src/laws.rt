//! Laws of plans, over the definitions alone.
ghost use Rattle.std.specs.Prelude.{◌≡◌, ◌++◌, ◌∷◌, [], List, filter, IsSome};
ghost use Rattle.std.specs.List.{All, filter_map};
ghost use Rattle.cdi_beans.specs.Problems.{IsMadeOf};
ghost use Rattle.cdi_beans.specs.declared.bean.BeanList.{BeanList};
ghost use Rattle.cdi_deployment.specs.declared.deployment.Class.{Class};
ghost use Rattle.cdi_deployment.specs.declared.deployment.Deployment.{Deployment};
ghost use Rattle.cdi_planner.specs.Codes.{post_construct, pre_destroy};
ghost use Rattle.cdi_planner.specs.Inherited.{leaves_code, leaves_step};
ghost use Rattle.cdi_planner.specs.Observers.{observer_of};
ghost use Rattle.cdi_planner.specs.Plans.{IsDeclared};
ghost use Rattle.cdi_planner.specs.Steps.{injections};
ghost use Rattle.cdi_types.specs.Members.{members_of};

/// Each bean of a deployment whose names have no problem has a plan: its class is declared, and so is its producer, if it is a product.
pub fn law_beans_are_declared()
    ensures { (d : Deployment) (list : BeanList) → IsMadeOf d list
        → All (IsDeclared d.classes) list.beans }
{}

/// Each observer of a deployment whose names have no problem is declared by the class that is told to declare it.
pub fn law_observers_are_declared()
    ensures { (d : Deployment) (list : BeanList) → IsMadeOf d list
        → All (λ o. IsSome (observer_of d.classes o)) list.observers }
{}

/// What is injected into an instance of a class, and by which initializers, is what its direct superclass has of that, but for initializers
/// that it overrides, and behind it what it declares itself.
pub fn law_injections_are_inherited()
    ensures { (line : List Class) (class : Class) → injections (line ++ class ∷ [])
        ≡ filter (leaves_step class) (injections line) ++ injections (class ∷ []) }
{}

/// So are the callbacks of a class.
pub fn law_callbacks_are_inherited()
    ensures post_construct { (line : List Class) (class : Class)
        → filter_map post_construct (members_of (line ++ class ∷ []))
        ≡ filter (leaves_code class) (filter_map post_construct (members_of line))
        ++ filter_map post_construct (members_of (class ∷ [])) }
    ensures pre_destroy { (line : List Class) (class : Class)
        → filter_map pre_destroy (members_of (line ++ class ∷ []))
        ≡ filter (leaves_code class) (filter_map pre_destroy (members_of line))
        ++ filter_map pre_destroy (members_of (class ∷ [])) }
{}

//! Laws of chains, over the definitions alone.
ghost use Rattle.std.specs.Prelude.{List};
ghost use Rattle.std.specs.List.Sorted.{IsStrictlyIncreasing};
ghost use Rattle.cdi_base.specs.declared.place.InterceptorMethod.{InterceptorMethod};
ghost use Rattle.cdi_beans.specs.declared.bean.EnabledInterceptor.{EnabledInterceptor};
ghost use Rattle.cdi_quals.specs.declared.qualifier.Qualifier.{Qualifier};
ghost use Rattle.cdi_plans.specs.Chains.{chain_of};

/// A chain lists interceptors in their order, and none twice.
pub fn law_in_order()
    ensures { (method : InterceptorMethod) (had : List Qualifier)
        → (interceptors : List EnabledInterceptor)
        → IsStrictlyIncreasing (chain_of method had interceptors) }
{}

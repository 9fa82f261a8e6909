//! What a deployment without these problems has.
ghost use Rattle.std.specs.Prelude.{◌≡◌, []};
ghost use Rattle.cdi_base.specs.declared.or_memory.OrMemory.{OrMemory};
ghost use Rattle.cdi_base.specs.declared.or_memory.OrMemory.TheVariants.{Memory};
ghost use Rattle.cdi_deployment.specs.declared.deployment.Deployment.{Deployment};
ghost use Rattle.cdi_name_check.specs.NameProblems.{AreNameProblems};
ghost use Rattle.cdi_types.specs.Declarations.{declarations_of};
ghost use Rattle.cdi_types.specs.Table.{IsSound, IsRefused};
ghost use Rattle.cdi_types.specs.declared.fault.TypesFault.{TypesFault};

/// If a deployment has none of these problems, its types have a table: no type is its own proper supertype, and each name above a
/// type is a type's. So nothing but want of memory keeps the table from being built.
pub fn law_types_sound()
    ensures sound { (d : Deployment) → AreNameProblems d [] → IsSound (declarations_of d) }
    ensures memory_alone { (d : Deployment) → AreNameProblems d []
        → (e : OrMemory TypesFault) → IsRefused (declarations_of d) e → e ≡ Memory }
{}

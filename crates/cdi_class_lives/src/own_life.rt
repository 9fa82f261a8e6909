//! What a class declares for the lives of its instances.
use cdi_base::{Name, Seq};
use cdi_deployment::Field;
use cdi_machine::{Code, Step};
use cdi_method_maps::NamedMethod;

/// What a class declares for the lives of its instances.
#[derive(Drop)]
pub struct OwnLife {
    /// The name of the class.
    pub class: Name,
    /// The names of all members that it declares. It overrides those of the same names.
    pub declared: Seq<Name>,
    /// Its fields with the values that they begin with.
    pub fields: Seq<Field>,
    /// The steps of its injected fields and initializers.
    pub injections: Seq<Step>,
    /// Its post-construct callbacks.
    pub post_constructs: Seq<Code>,
    /// Its pre-destroy callbacks.
    pub pre_destroys: Seq<Code>,
    /// Its business methods; if it doesn't inherit those of its superclass, all that it has.
    pub methods: Seq<NamedMethod>,
}

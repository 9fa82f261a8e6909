//! What one class declares that runs in the lives of instances.
ghost use Rattle.std.specs.Prelude.{◌≡◌, ◌∷◌, [], IfOk};
ghost use Rattle.cdi_planner.specs.Inherited as spec;
ghost use Rattle.cdi_planner.specs.Steps.{injections};
ghost use Rattle.cdi_types.specs.Members.{members_of};

use crate::codes::{business_methods, post_constructs, pre_destroys};
use crate::copies::copy_fields;
use crate::steps::{add_initializers, add_injected_fields};
use cdi_base::Seq;
use cdi_deployment::{Class, Field, Member};
use cdi_plans::Chains;
use cdi_plans::plan::{BusinessMethod, Code, Step};
use cdi_types::ClassPart;
use std::alloc::{AllocError, Global};

/// What a class declares that runs in the lives of its instances, and of those of the classes below it unless they override it (Jakarta
/// CDI 4.0, *Inheritance of member-level metadata*).
pub struct OwnParts {
    /// Its fields with the values that they begin with.
    pub fields: Seq<Field>,
    /// The steps of its injected fields, and behind them those of its initializers.
    pub injections: Seq<Step>,
    /// Its post-construct callbacks.
    pub post_constructs: Seq<Code>,
    /// Its pre-destroy callbacks.
    pub pre_destroys: Seq<Code>,
    /// Its business methods, with the chains that they have for a bean of this class.
    pub methods: Seq<BusinessMethod>,
}

/// In one call, so that the proof of each function that owns such parts has one step here, and not one for each of them.
impl Drop for OwnParts {
    fn drop(self) {
        let OwnParts {
            fields: _fields,
            injections: _injections,
            post_constructs: _post_constructs,
            pre_destroys: _pre_destroys,
            methods: _methods,
        } = self;
    }
}

/// The members that a class declares, with it.
fn own_members<'a>(
    alloc: Global,
    class: &'a Class,
) -> Result<Seq<ClassPart<'a, Member>>, AllocError>
    ensures { IfOk result (λ members. members ≡ members_of (class.now ∷ [])) }
{
    let mut members = Seq::empty(alloc);
    for part in class.members.as_slice() {
        members.push(ClassPart { class, part })?;
    }
    Ok(members)
}

/// The steps of the injected fields that a class declares, and of those of these members that are initializers.
fn own_injections(
    alloc: Global,
    class: &Class,
    members: &[ClassPart<'_, Member>],
) -> Result<Seq<Step>, AllocError>
    requires { members.now ≡ members_of (class.now ∷ []) }
    ensures { IfOk result (λ steps. steps ≡ injections (class.now ∷ [])) }
{
    let mut steps = Seq::empty(alloc);
    add_injected_fields(alloc, class.inject.as_slice(), &mut steps)?;
    add_initializers(alloc, members, &mut steps)?;
    Ok(steps)
}

/// What a class declares, with the chains of its bean.
pub(crate) fn own_parts(
    alloc: Global,
    chains: &Chains,
    class: &Class,
) -> Result<OwnParts, AllocError>
    ensures { IfOk result (λ own. own ≡ spec.own_parts chains.now class.now) }
{
    let members = own_members(alloc, class)?;
    let has = members.as_slice();
    Ok(OwnParts {
        fields: copy_fields(alloc, class.fields.as_slice())?,
        injections: own_injections(alloc, class, has)?,
        post_constructs: post_constructs(alloc, has)?,
        pre_destroys: pre_destroys(alloc, has)?,
        methods: business_methods(alloc, chains, class.name, has)?,
    })
}

//! The interceptor bindings of classes and of their members.
ghost use Rattle.std.specs.Prelude.{◌≡◌, ◌++◌, ◌∷◌, [], map, option_map, IfOk, OnOk};
ghost use Rattle.std.specs.List.{filter_map};
ghost use Rattle.std.specs.Option.{option_copied};
ghost use Rattle.cdi_bean_check.specs.Qualifiers.{full_uses as all_full};
ghost use Rattle.cdi_plans.specs.Bindings as spec;

use cdi_base::{Name, Seq, Use};
use cdi_deployment::{Class, Member};
use cdi_quals::{Qualifier, QualifierTypes};
use std::alloc::{AllocError, Global};

/// The bindings of a member whose calls are intercepted: a business method, a producer, a disposer or an observer (Jakarta CDI 4.0,
/// *Container invocations and interception*).
#[derive(Debug, Drop)]
pub struct MemberBindings {
    pub name: Name,
    /// Its own bindings, with all members of their types.
    pub bindings: Seq<Qualifier>,
}

/// The bindings of a class (Jakarta Interceptors 2.1, *Binding an Interceptor to a Target Class*), and those of its members.
#[derive(Debug, Drop)]
pub struct ClassBindings {
    pub name: Name,
    /// The class-level bindings, with all members of their types.
    pub bindings: Seq<Qualifier>,
    /// Of those members that it declares whose calls are intercepted.
    pub members: Seq<MemberBindings>,
}

/// The bindings of a member, if its calls are intercepted.
fn bindings_of(member: &Member) -> Option<&[Use]>
    ensures { option_map (λ uses. uses.now) result ≡ spec.bindings_of member.now }
{
    match member {
        Member::Method(method) => Some(method.bindings.as_slice()),
        Member::Producer(producer) => Some(producer.bindings.as_slice()),
        Member::Disposer(disposer) => Some(disposer.bindings.as_slice()),
        Member::Observer(observer) => Some(observer.bindings.as_slice()),
        _ => None,
    }
}

/// Uses with all members of their types.
fn full_uses(
    alloc: Global,
    types: &QualifierTypes,
    uses: &[Use],
) -> Result<Seq<Qualifier>, AllocError>
    ensures { IfOk result (λ full. full ≡ all_full types.now uses.now) }
{
    let mut full = Seq::empty(alloc);
    for written in uses {
        full.push(Qualifier::new(alloc, types, written)?)?;
    }
    Ok(full)
}

/// Adds the bindings of a member, if its calls are intercepted.
fn add_member(
    alloc: Global,
    types: &QualifierTypes,
    member: &Member,
    members: &mut Seq<MemberBindings>,
) -> Result<(), AllocError>
    ensures { OnOk result (members.new
        ≡ members.old ++ filter_map (spec.member_bindings types.now) (member.now ∷ [])) }
{
    match bindings_of(member) {
        Some(uses) => {
            members.push(MemberBindings {
                name: member.name(),
                bindings: full_uses(alloc, types, uses)?,
            })?;
            Ok(())
        }
        None => Ok(()),
    }
}

/// The bindings of members.
fn members_of(
    alloc: Global,
    types: &QualifierTypes,
    declared: &[Member],
) -> Result<Seq<MemberBindings>, AllocError>
    ensures { IfOk result
        (λ members. members ≡ filter_map (spec.member_bindings types.now) declared.now) }
{
    let mut members = Seq::empty(alloc);
    for member in declared {
        add_member(alloc, types, member, &mut members)?;
    }
    Ok(members)
}

impl ClassBindings {
    /// The bindings of a class.
    fn of(alloc: Global, types: &QualifierTypes, class: &Class) -> Result<ClassBindings, AllocError>
        ensures { IfOk result (λ bindings. bindings ≡ spec.class_bindings types.now class.now) }
    {
        Ok(ClassBindings {
            name: class.name,
            bindings: full_uses(alloc, types, class.bindings.as_slice())?,
            members: members_of(alloc, types, class.members.as_slice())?,
        })
    }
}

/// The bindings of classes.
pub(crate) fn bindings_of_classes(
    alloc: Global,
    types: &QualifierTypes,
    classes: &[Class],
) -> Result<Seq<ClassBindings>, AllocError>
    ensures { IfOk result (λ all. all ≡ map (spec.class_bindings types.now) classes.now) }
{
    let mut all = Seq::empty(alloc);
    for class in classes {
        all.push(ClassBindings::of(alloc, types, class)?)?;
    }
    Ok(all)
}

//! What a product comes from, and what disposes of it (Jakarta CDI 4.0, *Lifecycle of producer methods*, *Lifecycle of producer
//! fields*).
ghost use Rattle.std.specs.Prelude.{◌≡◌, ◌∷◌, [], Some, MatchOption, IfOk, IsTrue};
ghost use Rattle.cdi_bean_rules.specs.Disposers.{Serves, Disposes};
ghost use Rattle.cdi_bean_rules.specs.Limits.{is_producer};
ghost use Rattle.cdi_deployment.specs.declared.deployment.Member.TheVariants as members;
ghost use Rattle.cdi_planner.specs.Products as spec;

use crate::codes::injected_method;
use cdi_base::Seq;
use cdi_bean_rules::serves;
use cdi_beans::BeanKind;
use cdi_deployment::{Class, Disposer, Member};
use cdi_plans::Chains;
use cdi_plans::plan::{InjectedMethod, Source};
use cdi_quals::QualifierTypes;
use cdi_types::{ClassPart, TypeTable};
use std::alloc::{AllocError, Global};

/// Whether a member is the producer of beans of this kind.
fn is_producer_of(kind: &BeanKind, member: &Member) -> bool
    ensures { result ≡ spec.is_producer_of kind.now member.now }
{
    match member {
        Member::Producer(producer) => *kind == BeanKind::ProducerMethod(producer.name),
        Member::ProducerField(producer) => *kind == BeanKind::ProducerField(producer.name),
        _ => false,
    }
}

/// The producer of beans of this kind that a class declares.
pub(crate) fn producer_in<'a>(kind: &BeanKind, class: &'a Class) -> Option<ClassPart<'a, Member>>
    ensures { result ≡ spec.producer_in kind.now class.now }
{
    for part in class.members.as_slice() {
        if is_producer_of(kind, part) {
            return Some(ClassPart { class, part });
        }
    }
    None
}

/// What a producer gives its instances by.
pub(crate) fn source_of(
    alloc: Global,
    chains: &Chains,
    class: &Class,
    producer: &Member,
) -> Result<Source, AllocError>
    requires { IsTrue (is_producer producer.now) }
    ensures { IfOk result
        (λ source. spec.source_of chains.now (class.now, producer.now) ≡ Some source) }
{
    match producer {
        Member::Producer(method) => {
            let params = method.params.as_slice();
            Ok(Source::ProducerMethod(injected_method(
                alloc,
                chains,
                class.name,
                class,
                method.name,
                method.body,
                params,
            )?))
        }
        Member::ProducerField(held) => Ok(Source::ProducerField(held.field)),
        _ => unreachable!(),
    }
}

/// A member, if it is a disposer that serves a producer.
fn serving<'m>(
    types: &TypeTable,
    qualifiers: &QualifierTypes,
    member: &'m Member,
    producer: &Member,
) -> Option<&'m Disposer>
    ensures disposes { MatchOption result
        (¬ Disposes types.now qualifiers.now member.now producer.now)
        (λ _. Disposes types.now qualifiers.now member.now producer.now) }
    ensures is { MatchOption result (Unit {0}) (λ m. member.now ≡ members.Disposer m.now) }
{
    match member {
        Member::Disposer(disposer) => {
            if serves(types, qualifiers, disposer, producer) {
                return Some(disposer);
            }
            None
        }
        _ => None,
    }
}

/// The disposers of a class that serve a producer, in the order of their declaration.
pub(crate) fn disposers_of(
    alloc: Global,
    types: &TypeTable,
    qualifiers: &QualifierTypes,
    chains: &Chains,
    class: &Class,
    producer: &Member,
) -> Result<Seq<InjectedMethod>, AllocError>
    ensures { IfOk result (spec.AreDisposersOf types.now qualifiers.now chains.now class.now
        producer.now class.now.members) }
{
    let mut disposers = Seq::empty(alloc);
    for member in class.members.as_slice() {
        if let Some(disposer) = serving(types, qualifiers, member, producer) {
            let params = disposer.params.as_slice();
            let name = disposer.name;
            let body = disposer.body;
            let method = injected_method(alloc, chains, class.name, class, name, body, params)?;
            disposers.push(method)?;
        }
    }
    Ok(disposers)
}

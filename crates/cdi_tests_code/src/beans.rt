//! Beans with a name, and lookups by a name. Beans 0 to 99 have the names 0 to 99, beans 100 to 199 have the names 100 to 199, and so
//! have beans 200 to 299.
use cdi_base::{BuiltIn, MemberValue, Name, Names, Scope, Seq, Use, Value};
use cdi_beans::{Bean, BeanKind, BeanQualifiers};
use cdi_deployment::Deployment;
use cdi_quals::{QualSet, Qualifier, QualifierTypes};
use cdi_resolve::{Resolution, Resolver};
use std::alloc::Global;
use std::process::Abort;

/// A deployment with nothing in it.
fn no_deployment(alloc: Global) -> Deployment {
    Deployment {
        names: Names::new(alloc),
        interfaces: Seq::empty(alloc),
        qualifiers: Seq::empty(alloc),
        bindings: Seq::empty(alloc),
        exceptions: Seq::empty(alloc),
        classes: Seq::empty(alloc),
        interceptors: Seq::empty(alloc),
        selected: Seq::empty(alloc),
        order: Seq::empty(alloc),
        scripts: Seq::empty(alloc),
    }
}

/// The qualifier `Named` with a number as its value.
fn named(rt: &impl Abort, alloc: Global, number: i64) -> Use {
    let mut members = Seq::empty(alloc);
    members
        .push(MemberValue {
            name: BuiltIn::Value.name(),
            value: Value::Int(number),
        })
        .expect(rt, "memory");
    Use {
        name: BuiltIn::Named.name(),
        members,
    }
}

fn types(rt: &impl Abort, alloc: Global) -> QualifierTypes {
    QualifierTypes::qualifiers_of(alloc, &no_deployment(alloc)).expect(rt, "memory")
}

/// The qualifiers of a lookup by a number.
pub(crate) fn set_of(rt: &impl Abort, alloc: Global, number: i64) -> QualSet {
    let uses = [named(rt, alloc, number)];
    QualSet::new(alloc, &Names::new(alloc), &types(rt, alloc), &uses).expect(rt, "memory")
}

/// The qualifiers of the lookups by numbers below this one.
pub(crate) fn sets_of(rt: &impl Abort, alloc: Global, end: i64) -> Seq<QualSet> {
    let mut sets = Seq::empty(alloc);
    for number in 0..end {
        sets.push(set_of(rt, alloc, number)).expect(rt, "memory");
    }
    sets
}

fn object(rt: &impl Abort, alloc: Global) -> Seq<Name> {
    let mut types = Seq::empty(alloc);
    types.push(BuiltIn::Object.name()).expect(rt, "memory");
    types
}

/// The qualifiers of a bean that is named by a number.
fn qualifiers(rt: &impl Abort, alloc: Global, number: i64) -> BeanQualifiers {
    let written = named(rt, alloc, number);
    let mut own = Seq::empty(alloc);
    own.push(Qualifier::new(alloc, &types(rt, alloc), &written).expect(rt, "memory"))
        .expect(rt, "memory");
    BeanQualifiers::new(alloc, own)
}

fn bean(rt: &impl Abort, alloc: Global, number: i64) -> Bean {
    Bean {
        kind: BeanKind::Managed,
        class: BuiltIn::Object.name(),
        types: object(rt, alloc),
        qualifiers: qualifiers(rt, alloc, number),
        scope: Scope::Dependent,
        alternative: false,
        priority: None,
        specializes: None,
        members: Seq::empty(alloc),
    }
}

/// A resolver of all the beans.
pub(crate) fn resolver(rt: &impl Abort, alloc: Global) -> Resolver {
    let mut beans = Seq::empty(alloc);
    let mut enabled = Seq::empty(alloc);
    for index in 0..300_i64 {
        let number = if index < 200 { index } else { index - 100 };
        beans.push(bean(rt, alloc, number)).expect(rt, "memory");
        enabled.push(true).expect(rt, "memory");
    }
    Resolver::new(alloc, beans, enabled).expect(rt, "memory")
}

/// What a lookup by a number is told: one bean has each of the first hundred, two have each of the next, and none has another.
pub(crate) fn wanted(number: usize) -> Resolution {
    match number {
        0..=99 => Resolution::One(number),
        100..=199 => Resolution::Many,
        _ => Resolution::Nothing,
    }
}

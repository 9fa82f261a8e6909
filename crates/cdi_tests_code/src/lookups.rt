//! Lookups are told what the resolver tells.
use crate::beans::{resolver, set_of, sets_of, wanted};
use cdi_base::BuiltIn;
use cdi_cache::Lookup;
use cdi_quals::QualSet;
use cdi_resolve::{Resolution, Resolving};
use std::alloc::Global;
use std::num::NonZeroUsize;
use std::process::Abort;

/// Ends the test unless a lookup is told this.
fn expect_told(
    rt: &impl Abort,
    asked: &mut impl Resolving,
    qualifiers: &QualSet,
    wanted: Resolution,
) {
    let told = asked.ask(BuiltIn::Object.name(), qualifiers);
    assert!(rt; told == wanted, "{told:?} in place of {wanted:?}");
}

/// Asks for each of 300 lookups, in their order.
fn ask_all(rt: &impl Abort, asked: &mut impl Resolving, sets: &[QualSet]) {
    for (number, set) in sets.iter().enumerate() {
        expect_told(rt, asked, set, wanted(number));
    }
}

/// Asks for each three times, through a lookup of a capacity.
fn ask_thrice(rt: &impl Abort, alloc: Global, capacity: usize) {
    let capacity = NonZeroUsize::new(capacity).expect(rt, "a capacity");
    let sets = sets_of(rt, alloc, 300);
    let mut lookup = Lookup::new(alloc, resolver(rt, alloc), capacity).expect(rt, "memory");
    ask_all(rt, &mut lookup, sets.as_slice());
    ask_all(rt, &mut lookup, sets.as_slice());
    ask_all(rt, &mut lookup, sets.as_slice());
}

#[test]
fn one_is_remembered(rt: HostRuntime) {
    ask_thrice(&rt, rt.alloc(), 1);
}

#[test]
fn two_are_remembered(rt: HostRuntime) {
    ask_thrice(&rt, rt.alloc(), 2);
}

#[test]
fn most_are_remembered(rt: HostRuntime) {
    ask_thrice(&rt, rt.alloc(), 256);
}

/// The first, another and the first again, of which one is remembered.
#[test]
fn one_makes_room_for_another(rt: HostRuntime) {
    let capacity = NonZeroUsize::new(1).expect(&rt, "a capacity");
    let beans = resolver(&rt, rt.alloc());
    let mut lookup = Lookup::new(rt.alloc(), &beans, capacity).expect(&rt, "memory");
    let first = set_of(&rt, rt.alloc(), 7);
    let second = set_of(&rt, rt.alloc(), 107);
    expect_told(&rt, &mut lookup, &first, Resolution::One(7));
    expect_told(&rt, &mut lookup, &second, Resolution::Many);
    expect_told(&rt, &mut lookup, &first, Resolution::One(7));
}

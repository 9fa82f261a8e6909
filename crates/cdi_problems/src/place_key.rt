//! The keys of places.
ghost use Rattle.std.specs.Prelude.{◌≡◌};
ghost use Rattle.cdi_problems.specs.PlaceKeys as spec;

use cdi_base::{InterceptorMethod, Name, Place};

/// A place, as a set or a map of places has it.
#[derive(Clone, Copy, Debug, PartialEq, Eq, Hash)]
pub enum PlaceKey {
    Class(Name),
    Member { class: Name, member: Name },
    Constructor(Name),
    AroundInvoke(Name),
    AroundConstruct(Name),
    PostConstruct(Name),
    PreDestroy(Name),
}

fn method_key(interceptor: Name, method: InterceptorMethod) -> PlaceKey
    ensures { result ≡ spec.method_key interceptor method }
{
    match method {
        InterceptorMethod::AroundInvoke => PlaceKey::AroundInvoke(interceptor),
        InterceptorMethod::AroundConstruct => PlaceKey::AroundConstruct(interceptor),
        InterceptorMethod::PostConstruct => PlaceKey::PostConstruct(interceptor),
        InterceptorMethod::PreDestroy => PlaceKey::PreDestroy(interceptor),
    }
}

/// What a set or a map of places has for a place.
pub fn key_of(place: &Place) -> PlaceKey
    ensures { result ≡ spec.key_of place.now }
{
    match place {
        Place::Class(name) => PlaceKey::Class(*name),
        Place::Member { class, member } => PlaceKey::Member {
            class: *class,
            member: *member,
        },
        Place::Constructor(class) => PlaceKey::Constructor(*class),
        Place::Interceptor {
            interceptor,
            method,
        } => method_key(*interceptor, *method),
    }
}

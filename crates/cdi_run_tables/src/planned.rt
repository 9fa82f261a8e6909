//! Where beans stand.
ghost use Rattle.std.specs.Prelude.{◌≡◌};
ghost use Rattle.cdi_run_tables.specs.Places as spec;

use cdi_base::{Place, Scope};
use cdi_beans::{Bean, BeanKind};

/// Where a bean stands, and its scope.
#[derive(Clone, Copy)]
pub struct PlacedBean {
    /// Its class, or the producer with the class that declares it.
    pub place: Place,
    pub scope: Scope,
}

/// The place of a bean.
fn place_of(bean: &Bean) -> Place
    ensures { result ≡ spec.place_of bean.now }
{
    match bean.kind {
        BeanKind::Managed => Place::Class(bean.class),
        BeanKind::ProducerMethod(name) | BeanKind::ProducerField(name) => Place::Member {
            class: bean.class,
            member: name,
        },
    }
}

impl PlacedBean {
    /// That of a bean.
    pub(crate) fn new(bean: &Bean) -> PlacedBean
        ensures { result ≡ record { place = spec.place_of bean.now; scope = bean.now.scope } }
    {
        PlacedBean {
            place: place_of(bean),
            scope: bean.scope,
        }
    }
}

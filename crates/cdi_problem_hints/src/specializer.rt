//! The enabled beans that specialize one bean.
ghost use Rattle.std.specs.Prelude.{◌≡◌, ◌++◌, map, filter, string_bytes, IfOk, OnOk};
ghost use Rattle.std.specs.Option.{option_copied};
ghost use Rattle.cdi_candidates.specs.Candidates as candidates;
ghost use Rattle.cdi_problem_hints.specs.Specializers as spec;

use crate::candidate::add_candidates;
use crate::subject::Subject;
use cdi_base::{Name, Place, Seq};
use cdi_bean_check::BeanClasses;
use cdi_candidates::place_of;
use cdi_deployment::Deployment;
use cdi_resolve::enabled_bean::enabled_of;
use cdi_resolve::{BeanTables, EnabledBean};
use std::alloc::{AllocError, Global};

/// The class whose bean that of a class directly specializes, if it does.
fn specialized_by(classes: &BeanClasses<'_>, class: Name) -> Option<Name>
    ensures { result ≡ spec.specialized_by classes.now class }
{
    let class = classes.class(class)?;
    let specialized = classes.specialized(class)?;
    Some(specialized.name)
}

/// Whether a bean that directly specializes that of a class, if it does, specializes that of another, directly or through others, of
/// which at most so many are looked at.
fn specializes(classes: &BeanClasses<'_>, class: Name, directly: Option<Name>, most: usize) -> bool
    ensures { result ≡ spec.specializes most classes.now class directly }
{
    let mut specialized = directly;
    for _ in 0..most {
        let Some(above) = specialized else {
            return false;
        };
        if above == class {
            return true;
        }
        specialized = specialized_by(classes, above);
    }
    false
}

/// The places of those of some beans that specialize the bean of a class.
fn specializing(
    alloc: Global,
    classes: &BeanClasses<'_>,
    class: Name,
    most: usize,
    beans: &[EnabledBean<'_>],
) -> Result<Seq<Place>, AllocError>
    ensures { IfOk result (λ places. places ≡ map (λ b. candidates.place_of b.1)
        (filter (λ b. spec.specializes most classes.now class b.1.specializes) beans.now)) }
{
    let mut places = Seq::empty(alloc);
    for enabled in beans {
        let bean = enabled.bean();
        if specializes(classes, class, bean.specializes, most) {
            places.push(place_of(bean))?;
        }
    }
    Ok(places)
}

/// The places of the enabled beans that specialize the bean of a class.
fn specializers(
    alloc: Global,
    deployment: &Deployment,
    tables: &BeanTables,
    class: Name,
) -> Result<Seq<Place>, AllocError>
    ensures { IfOk result (λ places.
        places ≡ spec.specializers deployment.now tables.now class) }
{
    let classes = deployment.classes.as_slice();
    let index = BeanClasses::build(alloc, classes)?;
    let resolver = &tables.resolver;
    let beans = enabled_of(alloc, resolver.beans(), resolver.flags())?;
    specializing(alloc, &index, class, classes.len(), beans.as_slice())
}

/// The places of the enabled beans that specialize the one at a place, directly or through others (Jakarta CDI 4.0, *Inconsistent
/// specialization*), by the tables of the deployment, if there are any.
pub(crate) fn specializers_at(
    alloc: Global,
    subject: &Subject<'_>,
    place: &Option<Place>,
) -> Result<Seq<Place>, AllocError>
    ensures { IfOk result (λ places. places ≡ spec.specializers_at
        subject.now.deployment.now (option_copied subject.now.tables) place.now) }
{
    match (subject.tables, place) {
        (Some(tables), Some(Place::Class(class))) => {
            specializers(alloc, subject.deployment, tables, *class)
        }
        _ => Ok(Seq::empty(alloc)),
    }
}

/// Adds these places.
pub(crate) fn add_specializers(
    alloc: Global,
    subject: &Subject<'_>,
    place: &Option<Place>,
    hint: &mut String,
) -> Result<(), AllocError>
    ensures { OnOk result (string_bytes hint.new ≡ string_bytes hint.old
        ++ spec.specializers_text subject.now.deployment.now
        (option_copied subject.now.tables) place.now) }
{
    let places = specializers_at(alloc, subject, place)?;
    add_candidates(alloc, &subject.deployment.names, places.as_slice(), hint)
}

//! Who asks for something at an injection point, and how what is left for it is drawn.
ghost use Rattle.std.specs.Prelude.{◌≡◌};
ghost use Rattle.cdi_pictures.specs.Points as spec;
ghost use Rattle.cdi_problems.specs.Elements.{element_of};
ghost use Rattle.cdi_problems.specs.Places.{same_place};

use crate::edge::Look;
use cdi_base::{Name, Names, Place};
use cdi_problems::{Element, Problem, ProblemKind};
use cdi_resolve::BeanTables;

/// By what the points of a deployment are drawn.
#[derive(Clone, Copy)]
pub(crate) struct Drawing<'a> {
    pub(crate) names: &'a Names,
    pub(crate) tables: &'a BeanTables,
    pub(crate) problems: &'a [Problem],
}

/// What has an injection point.
#[derive(Clone, Copy)]
pub(crate) struct Asker<'a> {
    pub(crate) drawing: Drawing<'a>,
    /// The class or the interceptor.
    pub(crate) owner: Name,
    /// Where its field, its constructor or its member stands.
    pub(crate) place: Place,
}

fn is_of_point(kind: ProblemKind) -> bool
    ensures { result ≡ spec.is_of_point kind }
{
    matches!(kind, ProblemKind::Unsatisfied | ProblemKind::Ambiguous)
}

fn is_same(place: &Place, other: &Place) -> bool
    ensures { result ≡ same_place place.now other.now }
{
    *place == *other
}

fn is_at(own: &Option<Place>, place: &Place) -> bool
    ensures { result ≡ spec.is_at own.now place.now }
{
    match own {
        Some(own) => is_same(own, place),
        None => false,
    }
}

/// Whether a place is told to have a point without its one bean.
fn is_faulty(problems: &[Problem], place: &Place) -> bool
    ensures { result ≡ spec.is_faulty problems.now place.now }
{
    problems.iter().any(|problem| is_of_point(problem.kind) && is_at(&problem.place, place))
}

/// How an edge of a point without its one bean is drawn.
fn look_at(problems: &[Problem], place: &Place) -> Look
    ensures { result ≡ spec.look_at problems.now place.now }
{
    if is_faulty(problems, place) {
        return Look::Red;
    }
    Look::Plain
}

impl<'a> Drawing<'a> {
    /// An element of a class or an interceptor, as what has points.
    pub(crate) fn asker(&self, owner: Name, element: &Element<'_>) -> Asker<'a>
        ensures { spec.asker_of result
            ≡ spec.asker_in (spec.drawing_of self.now) owner (element_of element.now) }
    {
        Asker {
            drawing: *self,
            owner,
            place: element.place(),
        }
    }
}

impl Asker<'_> {
    /// How its edges are drawn where it hasn't its one bean.
    pub(crate) fn look(&self) -> Look
        ensures { result ≡ spec.look_at self.now.drawing.problems.now self.now.place }
    {
        look_at(self.drawing.problems, &self.place)
    }
}

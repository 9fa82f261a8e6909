//! The problems of a deployment.
ghost use Rattle.std.specs.Prelude.{◌≡◌, ◌++◌, Some, IfOk, OnOk};
ghost use Rattle.cdi_problems.specs.Words as spec;
ghost use Rattle.cdi_problems.specs.Words.{kind_text, problem_text};

use crate::place::PlaceText;
use cdi_base::{Names, Place, Seq};
use std::alloc::{AllocError, Global};
use std::fmt;

/// The kinds of problems, in the order of their numbers (Jakarta CDI 4.0, *Problems detected automatically by the container*).
#[derive(Clone, Copy, Debug, PartialEq, Eq)]
pub enum ProblemKind {
    /// A name stands twice in its group, or a class has two callbacks of one kind.
    DuplicateName,
    /// A name isn't declared, or is of the wrong kind.
    UnknownName,
    /// A type is its own proper supertype.
    CyclicHierarchy,
    /// The class of a bean is abstract.
    AbstractBean,
    /// The types of a bean are restricted to something that isn't one of them.
    TypedNotAType,
    /// A bean specializes, and its class doesn't extend the class of a bean.
    SpecializesNothing,
    /// A bean lacks a type of the bean that it specializes.
    SpecializedTypeLost,
    /// A disposer serves no producer.
    UnmatchedDisposer,
    /// Two disposers serve a producer.
    TwoDisposers,
    /// A bean of the dependent pseudo-scope has a conditional observer.
    ConditionalDependent,
    /// A list of interceptor bindings names one type twice.
    TwoBindingsOfOneType,
    /// No body is registered under the name.
    UnknownBody,
    /// The shape of a body names something that isn't there.
    BodyOutsideShape,
    /// A body goes on with an interceptor chain where there is none.
    ProceedNotAllowed,
    /// A lifecycle callback throws a checked exception.
    CheckedLifecycle,
    /// An injection point has no bean.
    Unsatisfied,
    /// An injection point has several beans.
    Ambiguous,
    /// An injection point of a final class has a bean that needs a client proxy.
    Unproxyable,
    /// Two enabled beans specialize one bean.
    InconsistentSpecialization,
    /// A dependent object needs another of its own bean.
    DependentCycle,
    /// A bean of a final class is intercepted.
    FinalIntercepted,
    /// There are too many beans or observers.
    TooMany,
}

/// A problem of a deployment.
#[derive(Clone, Copy, Debug, PartialEq, Eq)]
pub struct Problem {
    pub kind: ProblemKind,
    /// Where it stands; too many beans or observers stand nowhere.
    pub place: Option<Place>,
}

impl ProblemKind {
    /// The kind as it is printed, with its number.
    pub const fn text(self) -> &'static str
        ensures { result.now ≡ kind_text self }
    {
        match self {
            ProblemKind::DuplicateName => "P1 DuplicateName",
            ProblemKind::UnknownName => "P2 UnknownName",
            ProblemKind::CyclicHierarchy => "P3 CyclicHierarchy",
            ProblemKind::AbstractBean => "P4 AbstractBean",
            ProblemKind::TypedNotAType => "P5 TypedNotAType",
            ProblemKind::SpecializesNothing => "P6 SpecializesNothing",
            ProblemKind::SpecializedTypeLost => "P7 SpecializedTypeLost",
            ProblemKind::UnmatchedDisposer => "P8 UnmatchedDisposer",
            ProblemKind::TwoDisposers => "P9 TwoDisposers",
            ProblemKind::ConditionalDependent => "P10 ConditionalDependent",
            ProblemKind::TwoBindingsOfOneType => "P11 TwoBindingsOfOneType",
            ProblemKind::UnknownBody => "P12 UnknownBody",
            ProblemKind::BodyOutsideShape => "P13 BodyOutsideShape",
            ProblemKind::ProceedNotAllowed => "P14 ProceedNotAllowed",
            ProblemKind::CheckedLifecycle => "P15 CheckedLifecycle",
            ProblemKind::Unsatisfied => "P16 Unsatisfied",
            ProblemKind::Ambiguous => "P17 Ambiguous",
            ProblemKind::Unproxyable => "P18 Unproxyable",
            ProblemKind::InconsistentSpecialization => "P19 InconsistentSpecialization",
            ProblemKind::DependentCycle => "P20 DependentCycle",
            ProblemKind::FinalIntercepted => "P21 FinalIntercepted",
            ProblemKind::TooMany => "P22 TooMany",
        }
    }
}

impl fmt::Display for ProblemKind {
    ghost output = { λ kind. Some (kind_text kind) };

    fn fmt<W: fmt::Write>(&self, f: &mut fmt::Formatter<W>) -> fmt::Result {
        f.write_str(self.text())
    }
}

/// A problem as it is printed: its kind, and its place if it has one.
#[derive(Clone, Copy)]
pub struct ProblemText<'a> {
    /// The table that has the names of the place.
    pub names: &'a Names,
    pub problem: &'a Problem,
}

impl fmt::Display for ProblemText<'_> {
    ghost output = { λ text. Some (problem_text text.names.now text.problem.now) };

    fn fmt<W: fmt::Write>(&self, f: &mut fmt::Formatter<W>) -> fmt::Result {
        let kind = self.problem.kind;
        match &self.problem.place {
            Some(place) => {
                let place = PlaceText {
                    names: self.names,
                    place,
                };
                write!(f, "{kind} {place}")
            }
            None => write!(f, "{kind}"),
        }
    }
}

/// Adds the problems of a kind at these places.
pub fn add_problems_at(
    kind: ProblemKind,
    places: &[Place],
    problems: &mut Seq<Problem>,
) -> Result<(), AllocError>
    ensures { OnOk result (problems.new ≡ problems.old ++ spec.problems_at kind places.now) }
{
    for place in places {
        problems.push(Problem {
            kind,
            place: Some(*place),
        })?;
    }
    Ok(())
}

/// The problems of a kind at these places.
pub fn problems_at(
    alloc: Global,
    kind: ProblemKind,
    places: &[Place],
) -> Result<Seq<Problem>, AllocError>
    ensures { IfOk result (λ problems. problems ≡ spec.problems_at kind places.now) }
{
    let mut problems = Seq::empty(alloc);
    add_problems_at(kind, places, &mut problems)?;
    Ok(problems)
}

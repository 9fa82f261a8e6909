//! The rules that problems break.
ghost use Rattle.std.specs.Prelude.{◌≡◌};
ghost use Rattle.cdi_problem_hints.specs.Rule as spec;

use cdi_problems::ProblemKind;

/// The rule that a problem breaks, in a sentence, and what to do if that isn't plain (Jakarta CDI 4.0, *Problems detected
/// automatically by the container*).
pub const fn rule_text(kind: ProblemKind) -> &'static str
    ensures { result.now ≡ spec.rule_text kind }
{
    match kind {
        ProblemKind::DuplicateName => {
            "the name stands twice in its group, or the class has two callbacks of one kind"
        }
        ProblemKind::UnknownName => "a name isn't declared, or is of the wrong kind",
        ProblemKind::CyclicHierarchy => "the type is its own supertype",
        ProblemKind::AbstractBean => "the class of a bean can't be abstract",
        ProblemKind::TypedNotAType => "the bean lacks a type that its list typed names",
        ProblemKind::SpecializesNothing => {
            "the bean specializes, so its class has to extend the class of a bean"
        }
        ProblemKind::SpecializedTypeLost => {
            "the bean has to have all types of the bean that it specializes"
        }
        ProblemKind::UnmatchedDisposer => {
            "the disposer needs a producer of its class that makes its type with its qualifiers"
        }
        ProblemKind::TwoDisposers => "a producer can't have two disposers",
        ProblemKind::ConditionalDependent => {
            "a bean of the scope Dependent can't have an observer with if_exists"
        }
        ProblemKind::TwoBindingsOfOneType => "a binding can't stand twice in one list",
        ProblemKind::UnknownBody => "no script has the name of the body",
        ProblemKind::BodyOutsideShape => {
            "the script names a field, a member or a type that isn't there"
        }
        ProblemKind::ProceedNotAllowed => "only a script of an interceptor can proceed",
        ProblemKind::CheckedLifecycle => {
            "a callback of an instance's life can't throw a checked exception"
        }
        ProblemKind::Unsatisfied => {
            "no enabled bean has the type and the qualifiers: declare one, or ask for others"
        }
        ProblemKind::Ambiguous => {
            "several enabled beans have the type and the qualifiers: add a qualifier, or make one \
             of them an alternative with a priority"
        }
        ProblemKind::Unproxyable => {
            "a client proxy has to stand for the bean, and can't if the type is a final class"
        }
        ProblemKind::InconsistentSpecialization => {
            "two enabled beans specialize one bean: disable one of them"
        }
        ProblemKind::DependentCycle => {
            "an instance needs another of the same bean: give a bean of the cycle a normal scope"
        }
        ProblemKind::FinalIntercepted => "a final class can't be intercepted",
        ProblemKind::TooMany => "there are too many beans or observers",
    }
}

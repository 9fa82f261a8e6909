//! What is asked for, and what it is narrowed down to.
ghost use Rattle.std.specs.Prelude.{◌≡◌, if◌then◌else◌, None};
ghost use Rattle.std.specs.Option.{option_copied};
ghost use Rattle.cdi_resolve.specs.Filters as filters;
ghost use Rattle.cdi_resolve.specs.Resolution as spec;

use crate::filter::{Left, passes};
use crate::required::Required;
use crate::resolution::Resolution;
use cdi_base::Name;
use cdi_beans::Bean;
use cdi_quals::Qualifier;

/// What is asked for, among enabled beans.
#[derive(Clone, Copy)]
pub(crate) struct Question<'a> {
    /// All beans.
    pub beans: &'a [Bean],
    /// The enabled ones that are looked at, by their indices.
    pub row: &'a [usize],
    /// The type, where it isn't known that all of these have it.
    pub ty: Option<Name>,
    /// The required qualifiers; none stands for `Default`.
    pub required: Required<'a>,
    /// The qualifier `Default`.
    pub default: &'a Qualifier,
    pub ghost is_default: { default.now ≡ filters.default },
}

/// The greater of two priorities.
fn greater(priority: Option<i64>, other: i64) -> Option<i64>
    ensures { result ≡ spec.greater priority (Some other) }
{
    match priority {
        Some(p) => Some(p.max(other)),
        None => Some(other),
    }
}

impl Question<'_> {
    ghost use Rattle.cdi_resolve.specs.Narrowing as narrowing;

    /// The bean with an index, if it is left.
    fn left_at(&self, index: usize, left: Left) -> Option<&Bean>
        ensures { option_copied result ≡ narrowing.left_at self.now left index }
    {
        let bean = self.beans.get(index)?;
        if passes(bean, self.ty, &self.required, self.default, left) {
            return Some(bean);
        }
        None
    }

    /// The only bean that is left, if there is one.
    fn sole(&self, left: Left) -> Resolution
        ensures { result ≡ spec.sole (narrowing.left_of self.now left) }
    {
        let mut found = Resolution::Nothing;
        for index in self.row {
            if self.left_at(*index, left).is_some() {
                if !matches!(found, Resolution::Nothing) {
                    return Resolution::Many;
                }
                found = Resolution::One(*index);
            }
        }
        found
    }

    /// The highest priority of the alternatives that are left, if all of them have one.
    fn highest_priority(&self) -> Option<i64>
        ensures { result ≡ (if spec.all_have_priority (narrowing.left_of self.now Left.Alternatives)
            then spec.greatest_priority (narrowing.left_of self.now Left.Alternatives) else None) }
    {
        let mut found = None;
        for index in self.row {
            if let Some(bean) = self.left_at(*index, Left::Alternatives) {
                let Some(priority) = bean.priority else {
                    return None;
                };
                found = greater(found, priority);
            }
        }
        found
    }

    /// What several alternatives are narrowed down to by their priorities.
    fn among_priorities(&self) -> Resolution
        ensures { result
            ≡ spec.by_priority (spec.alternatives (narrowing.eligible_of self.now)) }
    {
        let Some(priority) = self.highest_priority() else {
            return Resolution::Many;
        };
        match self.sole(Left::WithPriority(priority)) {
            Resolution::One(bean) => Resolution::One(bean),
            _ => Resolution::Many,
        }
    }

    /// What several beans are narrowed down to.
    fn among_alternatives(&self) -> Resolution
        ensures { result
            ≡ spec.among_alternatives (spec.alternatives (narrowing.eligible_of self.now)) }
    {
        match self.sole(Left::Alternatives) {
            Resolution::One(bean) => Resolution::One(bean),
            _ => self.among_priorities(),
        }
    }

    /// What it resolves to.
    pub(crate) fn resolution(&self) -> Resolution
        ensures { result ≡ spec.among_eligible (narrowing.eligible_of self.now) }
    {
        match self.sole(Left::Eligible) {
            Resolution::Many => self.among_alternatives(),
            told => told,
        }
    }
}

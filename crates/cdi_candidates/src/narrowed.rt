//! Which of the eligible beans are left.
ghost use Rattle.std.specs.Prelude.{◌≡◌, Some};
ghost use Rattle.std.specs.List.{list_any};
ghost use Rattle.cdi_candidates.specs.Candidates as spec;
ghost use Rattle.cdi_resolve.specs.Filters.{has_priority as has_priority_of};
ghost use Rattle.cdi_resolve.specs.Resolution as resolution;

use cdi_beans::Bean;
use cdi_resolve::EnabledBean;

fn is_one_alternative(beans: &[EnabledBean<'_>]) -> bool
    ensures { result ≡ list_any (λ b. b.1.alternative) beans.now }
{
    beans.iter().any(|bean| bean.bean().alternative)
}

fn all_have_priority(beans: &[EnabledBean<'_>]) -> bool
    ensures { result ≡ resolution.all_have_priority beans.now }
{
    beans.iter().all(|bean| bean.bean().priority.is_some())
}

fn greater(a: Option<i64>, b: Option<i64>) -> Option<i64>
    ensures { result ≡ resolution.greater a b }
{
    match (a, b) {
        (None, _) => b,
        (Some(_), None) => a,
        (Some(p), Some(q)) => Some(p.max(q)),
    }
}

fn greatest_priority(beans: &[EnabledBean<'_>]) -> Option<i64>
    ensures { result ≡ resolution.greatest_priority beans.now }
{
    let mut greatest = None;
    for bean in beans {
        greatest = greater(greatest, bean.bean().priority);
    }
    greatest
}

fn has_priority(bean: &Bean, priority: i64) -> bool
    ensures { result ≡ has_priority_of priority bean.now }
{
    match bean.priority {
        Some(own) => own == priority,
        None => false,
    }
}

fn keep_alternatives(beans: &mut Vec<EnabledBean<'_>>)
    ensures { beans.new.items ≡ resolution.alternatives beans.old.items }
{
    beans.retain(|bean| bean.bean().alternative);
}

fn keep_priority(priority: i64, beans: &mut Vec<EnabledBean<'_>>)
    ensures { beans.new.items ≡ resolution.with_greatest (Some priority) beans.old.items }
{
    beans.retain(|bean| has_priority(bean.bean(), priority));
}

/// Keeps those of the highest priority.
fn keep_highest(beans: &mut Vec<EnabledBean<'_>>)
    ensures { beans.new.items ≡ resolution.highest beans.old.items }
{
    match greatest_priority(beans.as_slice()) {
        Some(priority) => keep_priority(priority, beans),
        None => beans.clear(),
    }
}

/// Keeps those of several eligible beans that go before the others: alternatives, if some are; and if all of these have a priority,
/// those of the highest.
pub(crate) fn narrow(beans: &mut Vec<EnabledBean<'_>>)
    ensures { beans.new.items ≡ spec.among_eligible beans.old.items }
{
    if is_one_alternative(beans.as_slice()) {
        keep_alternatives(beans);
        if all_have_priority(beans.as_slice()) {
            keep_highest(beans);
        }
    }
}

//! Limits in the words of runs.
use cdi_base::Limits;

/// The limits that two words give, if they are in range: a depth and a number of ticks.
pub fn limits_of(words: &[&str]) -> Option<Limits> {
    match words {
        [depth, ticks] => Limits::new(depth.parse().ok()?, ticks.parse().ok()?),
        _ => None,
    }
}

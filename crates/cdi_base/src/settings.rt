//! What is set for a run.
ghost use Rattle.std.specs.Prelude.{◌≡◌};
ghost use Rattle.cdi_base.specs.Chosen as spec;

use crate::Limits;

/// Which of several candidates is chosen where the rules leave an order open.
#[derive(Clone, Copy, Debug, PartialEq, Eq)]
pub enum Order {
    First,
    Last,
}

impl Order {
    /// The index of the one that is chosen of so many candidates; of none it is 0.
    pub fn choose(self, count: u32) -> u32
        ensures { result ≡ spec.chosen self count }
    {
        match self {
            Order::First => 0,
            Order::Last => count.saturating_sub(1),
        }
    }
}

/// What is set for a run: how far each command may go, which candidate is chosen where the rules leave an order open, and whether
/// the entries of each command are written before its reply.
#[derive(Clone, Copy, Debug, PartialEq, Eq)]
pub struct Settings {
    pub limits: Limits,
    pub order: Order,
    pub shows_trace: bool,
}

impl Default for Settings {
    ghost is_default = { λ settings. spec.IsDefault settings };

    fn default() -> Settings {
        Settings {
            limits: Limits::default(),
            order: Order::First,
            shows_trace: false,
        }
    }
}

//! The limits of a command.
ghost use Rattle.std.specs.Prelude.{◌≡◌, ◌≤◌, ◌↔◌, IsSome, IfSome};

/// The deepest level of bodies that may be asked for.
pub const MAX_DEPTH: u32 = 1_024;

/// The deepest level of bodies of a program that asks for none.
const USUAL_DEPTH: u32 = 32;

/// The most entries of a command that may be asked for.
pub const MAX_TICKS: u32 = 100_000;

/// How deep the bodies of a command may call one another, and how many entries it may give.
#[derive(Clone, Copy, Debug, PartialEq, Eq)]
pub struct Limits {
    /// The levels of bodies, from 1 to [`MAX_DEPTH`].
    pub depth: u32,
    /// The entries, from 1 to [`MAX_TICKS`].
    pub ticks: u32,
    ghost deep: { 1 ≤ depth },
    ghost within_depth: { depth ≤ 1024 },
    ghost long: { 1 ≤ ticks },
    ghost within_ticks: { ticks ≤ 100000 },
}

impl Limits {
    ghost use Rattle.cdi_base.specs.Limits.{AreInRange};

    /// The limits, or `None` if one of them is out of its range.
    pub fn new(depth: u32, ticks: u32) -> Option<Limits>
        ensures in_range { IsSome result ↔ AreInRange depth ticks }
        ensures value { IfSome result (λ limits. (limits.depth ≡ depth) × (limits.ticks ≡ ticks)) }
    {
        if depth < 1 || depth > MAX_DEPTH || ticks < 1 || ticks > MAX_TICKS {
            return None;
        }
        Some(Limits { depth, ticks })
    }
}

impl Default for Limits {
    ghost is_default = { λ limits. (limits.depth ≡ 32) × (limits.ticks ≡ 100000) };

    fn default() -> Limits {
        Limits {
            depth: USUAL_DEPTH,
            ticks: MAX_TICKS,
        }
    }
}

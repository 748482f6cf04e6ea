// The limits that a table is read at.
#![tactic(auto)]

ghost use Rattle.std.specs.Prelude.{◌≡◌};
ghost use Rattle.limits.specs.Limits.{standard, limits_fit};

// How many states and symbols a table may have.
#[derive(Clone, Copy, Debug, PartialEq, Eq)]
pub struct Limits {
    pub states: usize,
    pub symbols: usize,
}

// "A caller that gives none has 24 and 32."
pub const STATES: usize = 24;

pub const SYMBOLS: usize = 32;

impl Default for Limits {
    ghost is_default = { λ r. r ≡ standard };

    fn default() -> Limits {
        standard()
    }
}

// The limits of such a caller.
pub fn standard() -> Limits
    ensures { result ≡ standard }
{
    Limits {
        states: STATES,
        symbols: SYMBOLS,
    }
}

// 39: no limit is zero or past its maximum.
#[tactic(auto, unfolding(crate::specs::Limits::limits_fit))]
pub fn limits_fit(limits: Limits) -> bool
    ensures { result ≡ limits_fit limits }
{
    1 <= limits.states && limits.states <= 40 && 1 <= limits.symbols && limits.symbols <= 64
}

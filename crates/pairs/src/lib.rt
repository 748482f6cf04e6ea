// Pairs of states as variables (document 01, "Pairs and clauses"): the formula, and a constant table for the way back.
#![tactic(auto)]

ghost use Rattle.std.specs.Prelude.{◌≡◌};
ghost use Rattle.pairs.specs.Pairs.{pairs, variable_of};

mod table;

pub use table::{pair_of, pair_table};

// Two states, low below high; both 0 for a variable past the table.
#[derive(Clone, Copy)]
pub struct Pair {
    pub low: u8,
    pub high: u8,
}

// How many pairs n states have.
pub fn pairs_of(n: u8) -> u16
    ensures { result ≡ pairs n }
{
    if n == 0 {
        return 0;
    }
    let m = n as u16;
    m * (m - 1) / 2
}

// The variable of two different states, in any order.
pub fn variable_of(p: u8, q: u8) -> u16
    ensures { result ≡ variable_of p q }
{
    if p < q {
        pairs_of(q) + p as u16
    } else {
        pairs_of(p) + q as u16
    }
}

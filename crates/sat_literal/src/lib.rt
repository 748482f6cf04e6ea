// Whether a literal is true or unset under the values, and the clauses of a list.
#![tactic(auto)]

ghost use Rattle.std.specs.Prelude.{◌≡◌, ◌+◌, ◌/◌, ◌%◌, ◌<◌, length, eqb};
ghost use Rattle.cnf.specs.Search.{is_right, is_unset};

mod clauses;

pub use clauses::{Clauses, clauses_of};

// Whether a literal is right where its variable is x.
fn says(l: u16, x: u8) -> bool
    ensures { result ≡ eqb (x + l % 2) 1 }
{
    u16::from(x) + l % 2 == 1
}

// Whether a literal is right under the values.
pub fn is_true(values: &[u8], l: u16) -> bool
    requires { l / 2 < length values.now }
    ensures { result ≡ is_right values.now l }
{
    says(l, values[usize::from(l / 2)])
}

// Whether its variable is unset.
pub fn is_unset(values: &[u8], l: u16) -> bool
    requires { l / 2 < length values.now }
    ensures { result ≡ is_unset values.now l }
{
    values[usize::from(l / 2)] == 2
}

// The equality solver: what a pair that is joined or apart says of every third state.
#![tactic(auto)]

ghost use Rattle.std.specs.Prelude.{◌≡◌, ◌<◌};
ghost use Rattle.cnf.specs.Clauses.{value_of};
ghost use Rattle.pairs.specs.Pairs.{variable_of};
ghost use Rattle.pairs.specs.Triangles.{triangles};
ghost use Rattle.sat_trail.specs.Conflicts.{is_broken, set_count};
ghost use Rattle.sat_trail.specs.Trail.{Ready, Attended};
ghost use Rattle.sat_trail.specs.Rows.{RowsOf};

use equality_spread::spread_both;
use sat_trail::{Conflict, StateRows, lacking};

// What p = q says of every third state: whatever holds of one of them holds of the other.
pub fn conclude_joined(
    n: u8,
    p: u8,
    q: u8,
    values: &mut [u8],
    trail: &mut [u16],
    rows: &mut StateRows,
    start: usize,
) -> Result<usize, Conflict>
    requires ready { Ready (triangles n) values.old trail.old start × RowsOf n values.old rows.old }
    requires p_lt_q { (p < q) × (q < n) × (value_of values.old (variable_of p q) ≡ 1) }
    ensures { Attended (triangles n) (variable_of p q) values.old trail.old start values.new trail.new (is_broken result) (set_count result)
        × RowsOf n values.new rows.new }
{
    let to_q = lacking(&rows.joined, p, &rows.joined, q);
    let to_p = lacking(&rows.joined, q, &rows.joined, p);
    let from_q = lacking(&rows.apart, p, &rows.apart, q);
    let from_p = lacking(&rows.apart, q, &rows.apart, p);
    let count = spread_both(n, p, q, to_q, to_p, 1, values, trail, rows, start)?;
    spread_both(n, p, q, from_q, from_p, 0, values, trail, rows, count)
}

// What p ≠ q says of every third state: it is joined to at most one of them.
pub fn conclude_apart(
    n: u8,
    p: u8,
    q: u8,
    values: &mut [u8],
    trail: &mut [u16],
    rows: &mut StateRows,
    start: usize,
) -> Result<usize, Conflict>
    requires ready { Ready (triangles n) values.old trail.old start × RowsOf n values.old rows.old }
    requires p_lt_q { (p < q) × (q < n) × (value_of values.old (variable_of p q) ≡ 0) }
    ensures { Attended (triangles n) (variable_of p q) values.old trail.old start values.new trail.new (is_broken result) (set_count result)
        × RowsOf n values.new rows.new }
{
    let from_q = lacking(&rows.joined, p, &rows.apart, q);
    let from_p = lacking(&rows.joined, q, &rows.apart, p);
    spread_both(n, p, q, from_q, from_p, 0, values, trail, rows, start)
}

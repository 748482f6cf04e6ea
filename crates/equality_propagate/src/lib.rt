// The equality solver: conclusions from pairs that are set, and from those that they set.
#![tactic(auto)]

ghost use Rattle.std.specs.Prelude.{◌≢◌, ◌<◌, length};
ghost use Rattle.cnf.specs.Clauses.{value_of};
ghost use Rattle.pairs.specs.Entries.{PairTable};
ghost use Rattle.pairs.specs.Triangles.{triangles};
ghost use Rattle.sat_trail.specs.Conflicts.{is_broken, set_count};
ghost use Rattle.sat_trail.specs.Trail.{Ready, Attended, Queue, Drained};
ghost use Rattle.sat_trail.specs.Rows.{RowsOf};

use equality_transitivity::{conclude_apart, conclude_joined};
use pairs::pair_of;
use sat_trail::{Conflict, StateRows};

// What the pair of a variable that is set says of every third state. With no states there is none.
pub fn conclude(
    n: u8,
    table: &[u16],
    x: u16,
    values: &mut [u8],
    trail: &mut [u16],
    rows: &mut StateRows,
    start: usize,
) -> Result<usize, Conflict>
    requires ready { Ready (triangles n) values.old trail.old start × RowsOf n values.old rows.old }
    requires pair_table { PairTable table.now }
    requires x_in_bounds { (x < length values.old) × (value_of values.old x ≢ 2) }
    ensures { Attended (triangles n) x values.old trail.old start values.new trail.new (is_broken result) (set_count result)
        × RowsOf n values.new rows.new }
{
    if n == 0 {
        return Ok(start);
    }
    let pair = pair_of(table, x);
    let p = pair.low;
    let q = pair.high;
    if values[usize::from(x)] == 1 {
        return conclude_joined(n, p, q, values, trail, rows, start);
    }
    conclude_apart(n, p, q, values, trail, rows, start)
}

// Draws every conclusion from the pairs on the trail from `from` on, and from those that it sets itself.
pub fn drain(
    n: u8,
    table: &[u16],
    values: &mut [u8],
    trail: &mut [u16],
    rows: &mut StateRows,
    from: usize,
    start: usize,
) -> Result<usize, Conflict>
    requires ready { Ready (triangles n) values.old trail.old start × RowsOf n values.old rows.old }
    requires pair_table { PairTable table.now × Queue (triangles n) values.old trail.old from start }
    ensures { Drained (triangles n) values.old trail.old start values.new trail.new (is_broken result) (set_count result)
        × RowsOf n values.new rows.new }
{
    let mut at = from;
    let mut count = start;
    'queue: while at < count {
        let x = trail[at];
        at += 1;
        count = conclude(n, table, x, values, trail, rows, count)?;
    }
    Ok(count)
}

// Unit propagation by passes over the whole list, until a pass sets nothing or a clause is in conflict.
#![tactic(auto)]

ghost use Rattle.std.specs.Prelude.{◌≡◌, true};
ghost use Rattle.cnf.specs.Clauses.{whole};
ghost use Rattle.pairs.specs.Entries.{PairTable};
ghost use Rattle.pairs.specs.Triangles.{triangles};
ghost use Rattle.sat_trail.specs.Conclusions.{with_triangles};
ghost use Rattle.sat_trail.specs.Rows.{RowsOf};
ghost use Rattle.sat_trail.specs.Conflicts.{is_broken, set_count};
ghost use Rattle.sat_trail.specs.Trail.{Ready, Queue, Settles};

use equality_propagate::drain;
use sat_scan::scan_clauses;
use sat_trail::{Conflict, StateRows};

// Draws the conclusions from the trail's variables from `from` on, then passes over the clauses; and again, until a pass sets nothing or a clause
// is broken.
pub fn propagate_passes(
    list: &[u16],
    n: u8,
    table: &[u16],
    values: &mut [u8],
    trail: &mut [u16],
    rows: &mut StateRows,
    from: usize,
    start: usize,
) -> Result<usize, Conflict>
    requires list_value { whole list.now ≡ true }
    requires ready { Ready (with_triangles list.now n) values.old trail.old start × Queue (triangles n) values.old trail.old from start }
    requires pair_table { PairTable table.now × RowsOf n values.old rows.old }
    ensures { Settles (with_triangles list.now n) values.old trail.old start values.new trail.new (is_broken result) (set_count result)
        × RowsOf n values.new rows.new }
{
    let mut at = from;
    let mut count = start;
    'passes: loop {
        at = drain(n, table, values, trail, rows, at, count)?;
        let mut none = [0u16; 0];
        let s = scan_clauses(list, n, table, values, trail, rows, at, &mut none)?;
        count = s.count;
        if count == at {
            return Ok(count);
        }
    }
}

// Values are closed before each turn of the search.
ghost use Rattle.std.specs.Prelude.{◌≤◌, length};
ghost use Rattle.pairs.specs.Entries.{PairTable};
ghost use Rattle.sat_trail.specs.Conclusions.{with_triangles};
ghost use Rattle.sat_trail.specs.Rows.{RowsOf};
ghost use Rattle.sat_trail.specs.Conflicts.{is_broken, set_count};
ghost use Rattle.sat_trail.specs.Trail.{Ready, Queue, Settles};
ghost use Rattle.sat_restore.specs.Restoring.{CountersBeforeIf};
ghost use Rattle.sat_propagate.specs.Preparing.{Prepared, CountersAtRestIf};

use super::propagate_indexed;
use sat_segments::propagate_segments;
use sat_trail::{Conflict, StateRows};

// Closes the values, where clauses wait for the trail's variables from `from` on: by the clauses of each literal where the list is indexed so, else by passes
// over the segments of each variable.
pub fn propagate(
    list: &[u16],
    n: u8,
    table: &[u16],
    firsts: &[u16; 1561],
    clauses: &[u16],
    starts: &[usize],
    masks: &[u64],
    counters: &mut [u32],
    noted: &mut [u16],
    values: &mut [u8],
    trail: &mut [u16],
    rows: &mut StateRows,
    from: usize,
    start: usize,
) -> Result<usize, Conflict>
    requires prepared { Prepared list.now firsts.now clauses.now starts.now masks.now counters.old noted.old }
    requires counters_before_if { CountersBeforeIf list.now clauses.now values.old trail.old from start counters.old }
    requires ready { Ready (with_triangles list.now n) values.old trail.old start }
    requires queue { Queue (with_triangles list.now n) values.old trail.old from start × (length values.old ≤ 780) }
    requires pair_table { PairTable table.now × RowsOf n values.old rows.old }
    ensures settles { Settles (with_triangles list.now n) values.old trail.old start values.new trail.new (is_broken result) (set_count result)
        × RowsOf n values.new rows.new }
    ensures caught { CountersAtRestIf list.now clauses.now values.new counters.new (is_broken result) }
{
    if from == start {
        return Ok(start);
    }
    if list.len() <= clauses.len() {
        return propagate_indexed(
            list, n, table, firsts, clauses, counters, noted, values, trail, rows, from, start,
        );
    }
    propagate_segments(
        list, n, table, starts, masks, values, trail, rows, from, start,
    )
}

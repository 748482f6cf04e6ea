// Clauses that have at most one literal left, by their counters: unit clauses are propagated, an empty one is a conflict.
#![tactic(auto)]

ghost use Rattle.std.specs.Prelude.{◌≤◌, length};
ghost use Rattle.cnf.specs.Clauses.{clauses_in};
ghost use Rattle.pairs.specs.Entries.{PairTable};
ghost use Rattle.sat_trail.specs.Rows.{RowsOf};
ghost use Rattle.sat_trail.specs.Conflicts.{is_broken, set_count};
ghost use Rattle.sat_trail.specs.Trail.{Ready};
ghost use Rattle.sat_units.specs.Units.{UnitsNoted, Heeded};

use sat_literal::{is_true, is_unset};
use sat_trail::{Conflict, StateRows, force};

// Sees to clauses that have at most one literal left, by their counters: one that is unset is forced, and without one the clause is broken.
pub fn propagate_units(
    list: &[u16],
    n: u8,
    table: &[u16],
    counters: &[u32],
    noted: &[u16],
    values: &mut [u8],
    trail: &mut [u16],
    rows: &mut StateRows,
    start: usize,
) -> Result<usize, Conflict>
    requires ready { Ready (clauses_in list.now) values.old trail.old start × (length values.old ≤ 780) }
    requires units_noted { UnitsNoted list.now values.old counters.now noted.now }
    requires pair_table { PairTable table.now × RowsOf n values.old rows.old }
    ensures { Heeded list.now noted.now values.old trail.old start values.new trail.new (is_broken result) (set_count result)
        × RowsOf n values.new rows.new }
{
    let mut count = start;
    'noted: for c in noted {
        let w = counters[usize::from(*c)];
        if w < 2048 {
            return Err(Conflict { count });
        }
        let m = (w - 2048) as u16;
        if is_true(values, m) {
            continue 'noted;
        }
        if is_unset(values, m) {
            count = force(n, table, m, values, trail, rows, count);
            continue 'noted;
        }
        return Err(Conflict { count });
    }
    Ok(count)
}

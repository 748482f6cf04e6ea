// One scan of the clauses of a list: the literals of unit clauses are set, until the end or a conflict.
#![tactic(auto)]

ghost use Rattle.std.specs.Prelude.{◌≡◌, true, ◌≤◌, ◌<◌, length};
ghost use Rattle.cnf.specs.Clauses.{clauses_in, whole};
ghost use Rattle.pairs.specs.Entries.{PairTable};
ghost use Rattle.sat_trail.specs.Rows.{RowsOf};
ghost use Rattle.sat_trail.specs.Conflicts.{is_broken};
ghost use Rattle.sat_trail.specs.Trail.{Ready};
ghost use Rattle.sat_scan.specs.Scan.{scan_count, scan_kept, Sifts};

use sat_literal::{is_true, is_unset};
use sat_trail::{Conflict, StateRows, force};

// A scan that came to the end: how many variables are set, and how many clauses neither hold nor force.
#[derive(Clone, Copy, Debug, PartialEq, Eq)]
pub struct Scanned {
    pub count: usize,
    pub kept: usize,
}

// One pass over the clauses, which sets what is forced as it meets it and is left at a clause whose literals are all false. It puts down the places
// of the clauses that neither hold nor force, as many as there is room for. In a clause that starts at `place`, `at` is its end, where the
// next one starts, and `i` the place of the next literal. The first literal is looked at before the loop: most clauses hold by it.
pub fn scan_clauses(
    list: &[u16],
    n: u8,
    table: &[u16],
    values: &mut [u8],
    trail: &mut [u16],
    rows: &mut StateRows,
    start: usize,
    places: &mut [u16],
) -> Result<Scanned, Conflict>
    requires list_value { (whole list.now ≡ true) × (0 < length places.old → length list.now ≤ 65536) }
    requires ready { Ready (clauses_in list.now) values.old trail.old start }
    requires pair_table { PairTable table.now × RowsOf n values.old rows.old }
    ensures sifts { Sifts list.now values.old trail.old start values.new trail.new places.new (is_broken result) (scan_count result) (scan_kept result) }
    ensures rows { RowsOf n values.new rows.new }
{
    let mut broken = false;
    let mut count = start;
    let mut kept: usize = 0;
    let mut at: usize = 0;
    'clauses: while at < list.len() {
        let place = at;
        let mut i = place + 1;
        at = i + usize::from(list[place]);
        let mut unset: usize = 0;
        let mut last: u16 = 0;
        if i < at {
            last = list[i];
            if is_true(values, last) {
                continue 'clauses;
            }
            if is_unset(values, last) {
                unset = 1;
            }
            i += 1;
        }
        'literals: loop {
            if i == at {
                if unset == 0 {
                    broken = true;
                    break 'clauses;
                }
                break 'literals;
            }
            let l = list[i];
            if is_true(values, l) {
                continue 'clauses;
            }
            if is_unset(values, l) {
                if unset == 1 {
                    if kept < places.len() {
                        places[kept] = place as u16;
                    }
                    kept += 1;
                    continue 'clauses;
                }
                unset = 1;
                last = l;
            }
            i += 1;
        }
        count = force(n, table, last, values, trail, rows, count);
    }
    if broken {
        return Err(Conflict { count });
    }
    Ok(Scanned { count, kept })
}

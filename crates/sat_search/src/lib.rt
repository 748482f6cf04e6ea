// The turns of the search: unit propagation, then a guess is undone or made.
#![tactic(auto)]

ghost use Rattle.std.specs.Prelude.{◌≡◌, length};
ghost use Rattle.cnf.specs.Trials.{not_false, search_tried};
ghost use Rattle.pairs.specs.Entries.{PairTable};
ghost use Rattle.sat_trail.specs.Conclusions.{with_triangles};
ghost use Rattle.sat_trail.specs.Rows.{RowsOf};
ghost use Rattle.sat_decide.specs.Turns.{Rested, EndsWith};
ghost use Rattle.sat_propagate.specs.Preparing.{Prepared, CountersOfIf};

use sat_backtrack::backtrack;
use sat_decide::{Due, Ending, due_at};
use sat_propagate::propagate;
use sat_trail::{StateRows, force};
use sat_trial::walk_back;

// Room for 780 places.
pub fn places() -> [u16; 780]
    ensures { length result ≡ 780 }
{
    [0u16; 780]
}

// Closes the values, then undoes the latest guess or makes one, until the search ends; where the budget is spent, walks back to the trial that
// is held. The trail has the variables that are set, in order; `levels` has the place on it of each guess that stands; every variable below `low` is
// set.
pub fn turns(
    list: &[u16],
    n: u8,
    table: &[u16],
    firsts: &[u16; 1561],
    clauses: &[u16],
    starts: &[usize],
    masks: &[u64],
    counters: &mut [u32],
    saved: &mut [u32],
    noted: &mut [u16],
    values: &mut [u8],
    trail: &mut [u16],
    rows: &mut StateRows,
    budget: u64,
    start: usize,
) -> Ending
    requires prepared { Prepared list.now firsts.now clauses.now starts.now masks.now counters.old noted.old }
    requires counters_of_if { CountersOfIf list.now clauses.now values.old counters.old × (length saved.old ≡ length counters.old) }
    requires rested { Rested (with_triangles list.now n) (length values.old) values.old trail.old start }
    requires pair_table { PairTable table.now × RowsOf n values.old rows.old }
    ensures { EndsWith (search_tried (with_triangles list.now n) (length values.old) budget) result values.new (not_false values.old) }
{
    let mut levels = places();
    let mut at = start;
    let mut count = start;
    let mut depth: usize = 0;
    let mut made: u64 = 0;
    let mut low: usize = 0;
    'turns: loop {
        let reached = propagate(
            list, n, table, firsts, clauses, starts, masks, counters, noted, values, trail, rows,
            at, count,
        );
        let rested = match reached {
            Ok(set) => set,
            Err(conflict) => {
                if depth == 0 {
                    return Ending::Absent(made);
                }
                depth -= 1;
                let mark = usize::from(levels[depth]);
                let undone = backtrack(
                    list,
                    n,
                    table,
                    firsts,
                    clauses,
                    counters,
                    saved,
                    values,
                    trail,
                    rows,
                    mark,
                    at,
                    conflict.count,
                );
                low = undone.variable + 1;
                at = mark;
                count = undone.count;
                continue 'turns;
            }
        };
        match due_at(values, low, made, budget) {
            Due::Solved => {
                return Ending::Found(made);
            }
            Due::Spent => {
                walk_back(list, n, table, values, trail, rows, &levels, depth, rested);
                return Ending::Spent(made);
            }
            Due::Guess(x) => {
                at = rested;
                saved.copy_from_slice(counters);
                levels[depth] = at as u16;
                depth += 1;
                made += 1;
                // literal 2x says that x is true
                count = force(n, table, (2 * x) as u16, values, trail, rows, at);
                low = x + 1;
                continue 'turns;
            }
        }
    }
}

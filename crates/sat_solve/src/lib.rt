// The search over clauses that fit: a first pass, then the turns over what it leaves of the list.
#![tactic(auto)]

ghost use Rattle.std.specs.Prelude.{◌≡◌, true, ◌*◌, ◌≤◌, ◌<◌, length};
ghost use Rattle.cnf.specs.Clauses.{whole};
ghost use Rattle.cnf.specs.Trials.{not_false, search_tried};
ghost use Rattle.pairs.specs.Entries.{PairTable};
ghost use Rattle.sat_trail.specs.Conclusions.{with_triangles};
ghost use Rattle.sat_trail.specs.Rows.{RowsOf};
ghost use Rattle.sat_solve.specs.Room.{WordRoom};
ghost use Rattle.sat_solve.specs.Worth.{worth_lightening};
ghost use Rattle.sat_decide.specs.Turns.{none_set, Fresh, Begun, Rested, EndsWith};

use pairs::pair_table;
use sat_counters::count_literals;
use sat_decide::Ending;
use sat_occurrences::{index, no_firsts};
use sat_passes::propagate_passes;
use sat_scan::scan_clauses;
use sat_search::{places, turns};
use sat_segments::mark;
use sat_simplify::{simplify, simplify_all};
use sat_trail::{StateRows, own_rows};
use sat_trial::not_false;

// How the search ends, and the ceiling: the variables that are not false at the first rest, where there is one.
#[derive(Clone, Copy)]
pub struct End {
    pub ending: Ending,
    pub ceiling: usize,
}

// Room for the values of 780 variables, none of which is set.
pub fn none_set() -> [u8; 780]
    ensures { result ≡ none_set }
{
    [2u8; 780]
}

// The turns over a list whose clauses are indexed by their literals, in the room that is lent.
fn turns_indexed(
    list: &[u16],
    n: u8,
    table: &[u16],
    clauses: &mut [u16],
    words: &mut [u32],
    saved: &mut [u32],
    noted: &mut [u16],
    values: &mut [u8],
    trail: &mut [u16],
    rows: &mut StateRows,
    budget: u64,
    start: usize,
) -> Ending
    requires list_value { (whole list.now ≡ true) × WordRoom list.now clauses.old words.old saved.old noted.old }
    requires rested { Rested (with_triangles list.now n) (length values.old) values.old trail.old start }
    requires pair_table { PairTable table.now × RowsOf n values.old rows.old }
    ensures { EndsWith (search_tried (with_triangles list.now n) (length values.old) budget) result values.new (not_false values.old) }
{
    let mut firsts = no_firsts();
    index(list, &mut firsts, clauses);
    let few = count_literals(list, values, words);
    let starts = [0usize; 0];
    let masks = [0u64; 0];
    turns(
        list,
        n,
        table,
        &firsts,
        clauses,
        &starts,
        &masks,
        &mut words[..few],
        &mut saved[..few],
        noted,
        values,
        trail,
        rows,
        budget,
        start,
    )
}

// The same in room for a list of so many words: with half as many counters, since at rest each clause has two words at least.
fn turns_sized<const WORDS: usize, const COUNTERS: usize>(
    list: &[u16],
    n: u8,
    table: &[u16],
    values: &mut [u8],
    trail: &mut [u16],
    rows: &mut StateRows,
    budget: u64,
    start: usize,
) -> Ending
    requires list_value { (whole list.now ≡ true) × (length list.now ≤ WORDS) × (WORDS ≤ 32768) × (WORDS ≤ 2 * COUNTERS) × (COUNTERS ≤ 32768) }
    requires rested { Rested (with_triangles list.now n) (length values.old) values.old trail.old start }
    requires pair_table { PairTable table.now × RowsOf n values.old rows.old }
    ensures { EndsWith (search_tried (with_triangles list.now n) (length values.old) budget) result values.new (not_false values.old) }
{
    let mut clauses = [0u16; WORDS];
    let mut words = [0u32; COUNTERS];
    let mut saved = [0u32; COUNTERS];
    let mut noted = [0u16; WORDS];
    turns_indexed(
        list,
        n,
        table,
        &mut clauses,
        &mut words,
        &mut saved,
        &mut noted,
        values,
        trail,
        rows,
        budget,
        start,
    )
}

// The turns over a list that is indexed by segments, whatever its length.
fn turns_marked(
    list: &[u16],
    n: u8,
    table: &[u16],
    values: &mut [u8],
    trail: &mut [u16],
    rows: &mut StateRows,
    budget: u64,
    start: usize,
) -> Ending
    requires list_value { (whole list.now ≡ true) × (0 < length list.now) }
    requires rested { Rested (with_triangles list.now n) (length values.old) values.old trail.old start }
    requires pair_table { PairTable table.now × RowsOf n values.old rows.old }
    ensures { EndsWith (search_tried (with_triangles list.now n) (length values.old) budget) result values.new (not_false values.old) }
{
    let firsts = no_firsts();
    let mut starts = [0usize; 1025];
    let mut masks = [0u64; 12480];
    mark(list, &mut starts, &mut masks);
    let mut words = [0u32; 1];
    let mut saved = [0u32; 1];
    let mut noted = [0u16; 1];
    turns(
        list,
        n,
        table,
        &firsts,
        &list[..0],
        &starts,
        &masks,
        &mut words,
        &mut saved,
        &mut noted,
        values,
        trail,
        rows,
        budget,
        start,
    )
}

// The turns by the length of the list: up to 32,768 words it is indexed by its literals, above that by segments.
fn turns_any(
    list: &[u16],
    n: u8,
    table: &[u16],
    values: &mut [u8],
    trail: &mut [u16],
    rows: &mut StateRows,
    budget: u64,
    start: usize,
) -> Ending
    requires list_value { whole list.now ≡ true }
    requires rested { Rested (with_triangles list.now n) (length values.old) values.old trail.old start }
    requires pair_table { PairTable table.now × RowsOf n values.old rows.old }
    ensures { EndsWith (search_tried (with_triangles list.now n) (length values.old) budget) result values.new (not_false values.old) }
{
    if list.len() <= 4096 {
        return turns_sized::<4096, 2048>(list, n, table, values, trail, rows, budget, start);
    }
    if list.len() <= 32768 {
        return turns_sized::<32768, 16384>(list, n, table, values, trail, rows, budget, start);
    }
    turns_marked(list, n, table, values, trail, rows, budget, start)
}

// Whether what is left of a list at rest is looked for: where it is too long to be indexed, or not short and half of the variables are set.
fn worth_simplifying(words: usize, set: usize, variables: usize) -> bool
    ensures { result ≡ worth_lightening words set variables }
{
    if words <= 4096 {
        return false;
    }
    if words <= 32768 {
        return set >= variables / 2;
    }
    true
}

// The turns over what is left of a list at rest, where that is looked for and has room; else over the list.
fn turns_left(
    list: &[u16],
    n: u8,
    table: &[u16],
    values: &mut [u8],
    trail: &mut [u16],
    rows: &mut StateRows,
    budget: u64,
    start: usize,
) -> Ending
    requires list_value { whole list.now ≡ true }
    requires rested { Rested (with_triangles list.now n) (length values.old) values.old trail.old start }
    requires pair_table { PairTable table.now × RowsOf n values.old rows.old }
    ensures { EndsWith (search_tried (with_triangles list.now n) (length values.old) budget) result values.new (not_false values.old) }
{
    if !worth_simplifying(list.len(), start, values.len()) {
        return turns_any(list, n, table, values, trail, rows, budget, start);
    }
    let mut rest = [0u16; 32768];
    if let Some(k) = simplify_all(list, values, &mut rest) {
        return turns_any(&rest[..k], n, table, values, trail, rows, budget, start);
    }
    turns_any(list, n, table, values, trail, rows, budget, start)
}

// Closes the values by passes, and counts the ceiling; where a guess is due, goes on by turns. The first `start` variables of the trail are set.
fn finish(
    list: &[u16],
    n: u8,
    table: &[u16],
    values: &mut [u8],
    trail: &mut [u16],
    rows: &mut StateRows,
    budget: u64,
    start: usize,
) -> End
    requires begun { Begun list.now n values.old trail.old start }
    requires pair_table { PairTable table.now × RowsOf n values.old rows.old }
    ensures { EndsWith (search_tried (with_triangles list.now n) (length values.old) budget) result.ending values.new result.ceiling }
{
    let reached = propagate_passes(list, n, table, values, trail, rows, 0, start);
    let Ok(rested) = reached else {
        return End {
            ending: Ending::Absent(0),
            ceiling: 0,
        };
    };
    let ceiling = not_false(values);
    if rested == values.len() {
        return End {
            ending: Ending::Found(0),
            ceiling,
        };
    }
    let ending = turns_left(list, n, table, values, trail, rows, budget, rested);
    End { ending, ceiling }
}

// A first pass, and then the search over what it leaves of the list, which is mostly short; where that has no room, over the list.
fn solve_scanned(
    list: &[u16],
    n: u8,
    table: &[u16],
    values: &mut [u8],
    trail: &mut [u16],
    rows: &mut StateRows,
    budget: u64,
) -> End
    requires fresh { Fresh list.now n values.old × (length list.now ≤ 65536) × (length trail.old ≡ 780) }
    requires pair_table { PairTable table.now × RowsOf n values.old rows.old }
    ensures { EndsWith (search_tried (with_triangles list.now n) (length values.old) budget) result.ending values.new result.ceiling }
{
    let mut left = [0u16; 4096];
    let scanned = scan_clauses(list, n, table, values, trail, rows, 0, &mut left);
    let Ok(s) = scanned else {
        return End {
            ending: Ending::Absent(0),
            ceiling: 0,
        };
    };
    let start = s.count;
    if s.kept <= 4096 {
        let mut rest = [0u16; 4096];
        if let Some(k) = simplify(list, &left[..s.kept], values, &trail[..start], &mut rest) {
            return finish(&rest[..k], n, table, values, trail, rows, budget, start);
        }
    }
    finish(list, n, table, values, trail, rows, budget, start)
}

// The search over clauses that fit. Group 2 of n states is not in the list: its conclusions are drawn from the words of joined and apart states.
// With n = 0 there is no group 2.
pub fn solve(list: &[u16], n: u8, values: &mut [u8], budget: u64) -> End
    requires { Fresh list.now n values.old }
    ensures { EndsWith (search_tried (with_triangles list.now n) (length values.old) budget) result.ending values.new result.ceiling }
{
    let table = pair_table();
    let mut rows = StateRows {
        joined: own_rows(),
        apart: [0u64; 40],
    };
    let mut trail = places();
    if list.len() <= 65536 {
        return solve_scanned(list, n, &table, values, &mut trail, &mut rows, budget);
    }
    finish(list, n, &table, values, &mut trail, &mut rows, budget, 0)
}

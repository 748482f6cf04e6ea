// Unit propagation: a variable that is set leads to the clauses in which its falsified literal stands, and to no others; without an index, to its segments.
#![tactic(auto)]

ghost use Rattle.std.specs.Prelude.{◌≡◌, ◌≤◌, length};
ghost use Rattle.pairs.specs.Entries.{PairTable};
ghost use Rattle.sat_trail.specs.Conclusions.{with_triangles};
ghost use Rattle.sat_trail.specs.Rows.{RowsOf};
ghost use Rattle.sat_trail.specs.Conflicts.{is_broken, set_count};
ghost use Rattle.sat_trail.specs.Trail.{Ready, Queue, Settles};
ghost use Rattle.sat_counters.specs.Counters.{Indexed};
ghost use Rattle.sat_counters.specs.Earlier.{CountersBefore};
ghost use Rattle.sat_propagate.specs.Indexed.{Room, CountersAtRest};

use equality_propagate::conclude;
use sat_counters::{decrement, false_literal};
use sat_trail::{Conflict, StateRows};
use sat_units::propagate_units;

mod closure;

pub use closure::propagate;

// Sees to the variables of the trail from `from` on, and to those that it sets itself: first what the pair says, then the clauses of the list.
pub fn propagate_indexed(
    list: &[u16],
    n: u8,
    table: &[u16],
    firsts: &[u16; 1561],
    clauses: &[u16],
    counters: &mut [u32],
    noted: &mut [u16],
    values: &mut [u8],
    trail: &mut [u16],
    rows: &mut StateRows,
    from: usize,
    start: usize,
) -> Result<usize, Conflict>
    requires indexed { Indexed list.now firsts.now clauses.now × Room clauses.now counters.old noted.old }
    requires ready { Ready (with_triangles list.now n) values.old trail.old start }
    requires queue { Queue (with_triangles list.now n) values.old trail.old from start × (length values.old ≤ 780) }
    requires counters_before { CountersBefore list.now values.old trail.old from start counters.old }
    requires pair_table { PairTable table.now × RowsOf n values.old rows.old }
    ensures settles { Settles (with_triangles list.now n) values.old trail.old start values.new trail.new (is_broken result) (set_count result)
        × RowsOf n values.new rows.new }
    ensures caught { CountersAtRest list.now values.new counters.new (is_broken result) }
{
    let mut at = from;
    let mut count = start;
    'queue: while at < count {
        let x = trail[at];
        at += 1;
        let more = conclude(n, table, x, values, trail, rows, count)?;
        let l = false_literal(values, x);
        let places = &clauses[usize::from(firsts[l])..usize::from(firsts[l + 1])];
        let few = decrement(places, l as u16, counters, noted);
        count = propagate_units(
            list,
            n,
            table,
            counters,
            &noted[..few],
            values,
            trail,
            rows,
            more,
        )?;
    }
    Ok(count)
}

// The equality solver: the pairs of one state with those of a word are set, and those of two states with those of two words.
#![tactic(auto)]

ghost use Rattle.pairs.specs.Triangles.{triangles};
ghost use Rattle.sat_trail.specs.Conflicts.{is_broken, set_count};
ghost use Rattle.sat_trail.specs.Trail.{Ready};
ghost use Rattle.sat_trail.specs.Rows.{RowsOf};
ghost use Rattle.sat_trail.specs.Conclusions.{Spreads, Spread, SpreadBoth};

use pairs::variable_of;
use sat_trail::{Conflict, StateRows, put};

// For each state of the word `todo`: its pair with q is x. Answers how many variables are set, or a conflict with a pair that was set.
fn spread(
    n: u8,
    q: u8,
    todo: u64,
    x: u8,
    values: &mut [u8],
    trail: &mut [u16],
    rows: &mut StateRows,
    start: usize,
) -> Result<usize, Conflict>
    requires ready { Ready (triangles n) values.old trail.old start × RowsOf n values.old rows.old }
    requires spreads { Spreads n values.old q todo x }
    ensures { Spread n values.old trail.old start q todo x values.new trail.new (is_broken result) (set_count result)
        × RowsOf n values.new rows.new }
{
    let mut count = start;
    let mut rest = todo;
    'states: while rest != 0 {
        let s = bits::next_state(rest) as u8;
        rest = bits::later_states(rest);
        let v = variable_of(q, s);
        let y = values[usize::from(v)];
        if y == 2 {
            count = put(v, q, s, x, values, trail, rows, count);
            continue 'states;
        }
        if y != x {
            return Err(Conflict { count });
        }
    }
    Ok(count)
}

// For each state of the word `todo` its pair with q is x, and for each of `back` that with p.
pub fn spread_both(
    n: u8,
    p: u8,
    q: u8,
    todo: u64,
    back: u64,
    x: u8,
    values: &mut [u8],
    trail: &mut [u16],
    rows: &mut StateRows,
    start: usize,
) -> Result<usize, Conflict>
    requires ready { Ready (triangles n) values.old trail.old start × RowsOf n values.old rows.old }
    requires spreads { Spreads n values.old q todo x × Spreads n values.old p back x }
    ensures { SpreadBoth n values.old trail.old start p q todo back x values.new trail.new (is_broken result) (set_count result)
        × RowsOf n values.new rows.new }
{
    let count = spread(n, q, todo, x, values, trail, rows, start)?;
    spread(n, p, back, x, values, trail, rows, count)
}

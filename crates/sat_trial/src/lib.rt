// Trials: the variables that are true so far, with all others false, against the clauses.
#![tactic(auto)]

ghost use Rattle.std.specs.Prelude.{◌≡◌, true, ◌/◌, ◌<◌, length, take};
ghost use Rattle.lists.specs.Lists.{any};
ghost use Rattle.cnf.specs.Clauses.{clauses_in, whole};
ghost use Rattle.cnf.specs.Search.{is_right};
ghost use Rattle.cnf.specs.Trials.{only_true, satisfied, not_false};
ghost use Rattle.cnf.specs.Closing.{Formed};
ghost use Rattle.pairs.specs.Entries.{PairTable};
ghost use Rattle.sat_trail.specs.Rows.{RowsOf};
ghost use Rattle.sat_literal.specs.Literals.{Over};
ghost use Rattle.sat_trial.specs.Trial.{held_value, held_if, back_along, Retraceable};

use sat_literal::clauses_of;
use sat_trail::{StateRows, undo_to};

// How many variables are not false.
pub fn not_false(values: &[u8]) -> usize
    ensures { result ≡ not_false values.now }
{
    values.iter().filter(|y| **y != 0).count()
}

// Whether a literal is right in the trial: 2x where x is true, 2x + 1 where it is not.
fn literal_holds(values: &[u8], l: u16) -> bool
    requires { l / 2 < length values.now }
    ensures { result ≡ is_right (only_true values.now) l }
{
    if values[usize::from(l / 2)] == 1 {
        return l % 2 == 0;
    }
    l % 2 == 1
}

// Whether a literal of the clause is.
fn clause_holds(literals: &[u16], values: &[u8]) -> bool
    requires { Over literals.now (length values.now) }
    ensures { result ≡ any (is_right (only_true values.now)) literals.now }
{
    literals.iter().any(|l| literal_holds(values, *l))
}

// Whether every clause has such a literal.
fn trial_holds(list: &[u16], values: &[u8]) -> bool
    requires { (whole list.now ≡ true) × Formed (clauses_in list.now) (length values.now) }
    ensures { result ≡ satisfied (clauses_in list.now) (only_true values.now) }
{
    'clauses: for literals in clauses_of(list) {
        if !clause_holds(literals, values) {
            return false;
        }
    }
    true
}

// A value of the trial, or of that of none joined.
fn held_value(y: u8, holds: bool) -> u8
    ensures { result ≡ held_value y holds }
{
    u8::from(holds && y == 1)
}

// The values become those of the trial where it holds, else all false.
fn hold(values: &mut [u8], holds: bool)
    ensures { values.new ≡ held_if holds values.old }
{
    'variables: for y in values {
        *y = held_value(*y, holds);
    }
}

// Walks back along the guesses that stand to the first values whose trial holds. The trail has `start` variables, `guesses` guesses stand.
pub fn walk_back(
    list: &[u16],
    n: u8,
    table: &[u16],
    values: &mut [u8],
    trail: &[u16],
    rows: &mut StateRows,
    levels: &[u16; 780],
    guesses: usize,
    start: usize,
)
    requires list_value { (whole list.now ≡ true) × Formed (clauses_in list.now) (length values.old) }
    requires pair_table { PairTable table.now × RowsOf n values.old rows.old }
    requires retraceable { Retraceable values.old trail.now levels.now guesses start }
    ensures { values.new ≡ back_along (clauses_in list.now) levels.now values.old (take start trail.now) guesses }
{
    let mut depth = guesses;
    let mut count = start;
    'guesses: loop {
        if trial_holds(list, values) {
            hold(values, true);
            return;
        }
        if depth == 0 {
            hold(values, false);
            return;
        }
        depth -= 1;
        let mark = usize::from(levels[depth]);
        undo_to(n, table, values, trail, rows, mark, count);
        count = mark;
    }
}

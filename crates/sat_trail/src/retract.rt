// The way back along the trail: variables are unset again, in the values and in the words of their states.
ghost use Rattle.std.specs.Prelude.{◌<◌, length};
ghost use Rattle.pairs.specs.Entries.{PairTable};
ghost use Rattle.sat_trail.specs.Rows.{RowsOf, Assigned};
ghost use Rattle.sat_trail.specs.Undo.{Undoable, Unwound, Undone};

use super::rows::{StateRows, assign, unmark};
use pairs::pair_of;

// Unsets a variable. Where it was not set it has no mark, and none is cleared.
fn unset(n: u8, table: &[u16], x: u16, values: &mut [u8], rows: &mut StateRows)
    requires { PairTable table.now × RowsOf n values.old rows.old × (x < length values.old) }
    ensures { Assigned n values.old x 2 values.new rows.new.joined rows.new.apart }
{
    let i = usize::from(x);
    let k = values[i];
    values[i] = 2;
    if n == 0 {
        return;
    }
    let pair = pair_of(table, x);
    if k == 1 {
        unmark(&mut rows.joined, pair.low, pair.high);
        return;
    }
    unmark(&mut rows.apart, pair.low, pair.high);
}

// Unsets the variables of the trail from `mark` on.
pub fn undo_to(
    n: u8,
    table: &[u16],
    values: &mut [u8],
    trail: &[u16],
    rows: &mut StateRows,
    mark: usize,
    count: usize,
)
    requires { PairTable table.now × Undoable values.old trail.now mark count × RowsOf n values.old rows.old }
    ensures { Unwound n values.old trail.now mark count values.new rows.new.joined rows.new.apart }
{
    'trail: for i in (mark..count).rev() {
        unset(n, table, trail[i], values, rows);
    }
}

// Unsets the variables of the trail from `mark` on and sets the first of them, which was guessed, false.
pub fn undo(
    n: u8,
    table: &[u16],
    values: &mut [u8],
    trail: &[u16],
    rows: &mut StateRows,
    mark: usize,
    count: usize,
) -> usize
    requires { PairTable table.now × Undoable values.old trail.now mark count × RowsOf n values.old rows.old }
    ensures { Undone values.old trail.now mark count values.new result × RowsOf n values.new rows.new }
{
    undo_to(n, table, values, trail, rows, mark, count);
    let x = trail[mark];
    assign(n, table, x, 0, values, rows);
    usize::from(x)
}

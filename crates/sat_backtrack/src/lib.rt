// Backtracking: a guess is undone, and the counters of the clauses go back with the values.
#![tactic(auto)]

ghost use Rattle.std.specs.Prelude.{◌≡◌, ◌+◌, length};
ghost use Rattle.pairs.specs.Entries.{PairTable};
ghost use Rattle.sat_trail.specs.Rows.{RowsOf};
ghost use Rattle.sat_trail.specs.Undo.{Undoable, Undone};
ghost use Rattle.sat_restore.specs.Restoring.{IndexedIf, TrailMark, Sized, CountersBeforeIf};
ghost use Rattle.sat_backtrack.specs.Back.{Back};

use sat_restore::restore;
use sat_trail::{StateRows, undo};

// The variable of a guess that is undone, now false and forced, and how many variables are set with it.
#[derive(Clone, Copy, Debug, PartialEq, Eq)]
pub struct Flipped {
    pub variable: usize,
    pub count: usize,
}

// Undoes the guess at `mark` and all that was set after it, and sets its variable false, forced; the counters go back too, where the list is indexed.
pub fn backtrack(
    list: &[u16],
    n: u8,
    table: &[u16],
    firsts: &[u16; 1561],
    clauses: &[u16],
    counters: &mut [u32],
    saved: &mut [u32],
    values: &mut [u8],
    trail: &[u16],
    rows: &mut StateRows,
    mark: usize,
    base: usize,
    count: usize,
) -> Flipped
    requires indexed_if { IndexedIf list.now firsts.now clauses.now × Sized clauses.now counters.old × (length saved.old ≡ length counters.old) }
    requires trail_mark { TrailMark list.now values.old trail.now mark base count × CountersBeforeIf list.now clauses.now values.old trail.now base count saved.old }
    requires pair_table { PairTable table.now × Undoable values.old trail.now mark count × RowsOf n values.old rows.old }
    ensures undone { Undone values.old trail.now mark count values.new result.variable × RowsOf n values.new rows.new }
    ensures forced { result.count ≡ mark + 1 }
    ensures back { Back list.now clauses.now values.new trail.now mark counters.new saved.new }
{
    if list.len() <= clauses.len() {
        restore(
            list, firsts, clauses, counters, saved, values, trail, mark, base, count,
        );
    }
    let variable = undo(n, table, values, trail, rows, mark, count);
    Flipped {
        variable,
        // its variable stays set, for an earlier guess to undo
        count: mark + 1,
    }
}

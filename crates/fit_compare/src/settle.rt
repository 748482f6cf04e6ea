// Rounds over all the records until one changes nothing.
ghost use Rattle.std.specs.Prelude.{◌≡◌, ◌*◌, ◌≤◌};
ghost use Rattle.lists.specs.Lists.{same};
ghost use Rattle.table_spec.specs.File.{table_of};
ghost use Rattle.tops_spec.specs.Tops.{rounds};
ghost use Rattle.fit_spec.specs.Fit.{pair_tops, fits};
ghost use Rattle.fit_rounds.specs.Rows.{Holds, Named, Nexts};
ghost use Rattle.fit_compare.specs.Compared.{Rests, BothRead};

use super::marks::{any_ends, start_rows};
use super::nexts::{narrow, next_moves, next_returns};
use fit_rounds::{Kind, by_moves, by_returns};
use fit_worklist::quick;
use table_spec::Starts;
use table_view::Section;

// The same words stand in both.
fn same_rows(a: &[u64; 6000], b: &[u64; 6000]) -> bool
    ensures { result ≡ same a.now b.now }
{
    a == b
}

// So many rounds are enough, as for the tops of a table.
fn rest(
    internals: &[u8],
    calls: &[u8],
    returns: &[u8],
    moves: &[u8; 800],
    pushes: &[u8; 800],
    pops: &[u8; 20000],
    k: usize,
    n: usize,
    rows: &mut [u64; 6000],
)
    requires { Named 3 24 internals.now × Named 3 24 calls.now × Named 4 24 returns.now × Nexts n moves.now × Nexts n pushes.now × Nexts n pops.now × (k ≤ 24) }
    ensures { Rests internals.now calls.now returns.now moves.now pushes.now pops.now k n
        rows.old rows.new }
{
    let pairs = k * (n + 1);
    let most = pairs * (pairs + 1) + 1;
    'rounds: for _round in 0..most {
        let old = *rows;
        by_moves(Kind::Internal, internals, moves, n, rows);
        by_moves(Kind::Call, calls, pushes, n, rows);
        by_returns(returns, pops, n, rows);
        if same_rows(rows, &old) {
            return;
        }
    }
}

// The tops of all pairs of two tables that were read.
fn pair_rows(first: &[u8], one: Starts, second: &[u8], two: Starts) -> [u64; 6000]
    requires { BothRead first.now one second.now two }
    ensures { Holds result (pair_tops (table_of first.now) (table_of second.now)) }
{
    let states = table_view::part(first, one, Section::States);
    let others = table_view::part(second, two, Section::States);
    let n = others.len();
    let sink = narrow(n);
    let moves = next_moves(table_view::part(second, two, Section::Internals), sink);
    let pushes = next_moves(table_view::part(second, two, Section::Calls), sink);
    let pops = next_returns(table_view::part(second, two, Section::Returns), sink);
    let mut rows = [0u64; 6000];
    start_rows(states, others, &mut rows);
    let internals = table_view::part(first, one, Section::Internals);
    let calls = table_view::part(first, one, Section::Calls);
    let returns = table_view::part(first, one, Section::Returns);
    let k = states.len();
    quick(
        internals, calls, returns, &moves, &pushes, &pops, k, n, &mut rows,
    );
    rest(
        internals, calls, returns, &moves, &pushes, &pops, k, n, &mut rows,
    );
    rows
}

// No pair that accepts is reached on the empty stack.
pub fn fits(first: &[u8], one: Starts, second: &[u8], two: Starts) -> bool
    requires { BothRead first.now one second.now two }
    ensures { result ≡ fits (table_of first.now) (table_of second.now) }
{
    let rows = pair_rows(first, one, second, two);
    let states = table_view::part(first, one, Section::States);
    let others = table_view::part(second, two, Section::States);
    !any_ends(states, others, &rows)
}

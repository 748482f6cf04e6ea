// One round over the records of the first table: each with every state of the second, or with the number past them where it has no move.
ghost use Rattle.std.specs.Prelude.{◌≡◌, [], ◌∷◌, map, suc, ◌<◌, ◌≤◌};
ghost use Rattle.lists.specs.Lists.{upto};
ghost use Rattle.fit_spec.specs.Fit.{pair_return};
ghost use Rattle.fit_rounds.specs.Rows.{MoveTurn, ReturnTurn, Named, Nexts, MoveTurns, MovesTurn, over_each, ReturnTurns, ReturnsTurn};

use super::rows::{any, held, join, put};

// The moves that push nothing, or one state.
#[derive(Clone, Copy)]
pub enum Kind {
    Internal,
    Call,
}

// By an internal from u to v the tops of u are tops of v; by a call u is one, if u has a top.
fn move_pair(kind: Kind, u: usize, v: usize, rows: &mut [u64; 6000])
    requires { (u < 600) × (v < 600) }
    ensures { MoveTurn kind u v rows.old rows.new }
{
    match kind {
        Kind::Internal => {
            join(rows, u, v);
        }
        Kind::Call => {
            if any(rows, u) {
                put(rows, v, u);
            }
        }
    }
}

// One move of the first table, with every state of the second.
fn by_move(
    kind: Kind,
    p: usize,
    a: usize,
    q: usize,
    next: &[u8; 800],
    n: usize,
    rows: &mut [u64; 6000],
)
    requires { (p < 24) × (a < 32) × (q < 24) × Nexts n next.now }
    ensures { MoveTurns kind p a q n next.now rows.old rows.new }
{
    let width = n + 1;
    'seconds: for b in 0..width {
        let to = usize::from(next[b * 32 + a]);
        move_pair(kind, p * width + b, q * width + to, rows);
    }
}

// The moves of the first table, in file order.
pub fn by_moves(kind: Kind, section: &[u8], next: &[u8; 800], n: usize, rows: &mut [u64; 6000])
    requires { Named 3 24 section.now × Nexts n next.now }
    ensures { MovesTurn kind n section.now next.now rows.old rows.new }
{
    'records: for fields in section.chunks_exact(3) {
        let p = usize::from(fields[0]);
        let a = usize::from(fields[1]);
        let q = usize::from(fields[2]);
        by_move(kind, p, a, q, next, n, rows);
    }
}

// By a return from u to v that pops y the tops of y are tops of v, if y is a top of u.
fn return_pair(u: usize, y: usize, v: usize, rows: &mut [u64; 6000])
    requires { (u < 600) × (y < 600) × (v < 600) }
    ensures { ReturnTurn u y v rows.old rows.new }
{
    if held(rows, u, y) {
        join(rows, y, v);
    }
}

// One return of the first table with one state of the second, over every popped state.
fn by_return_over(
    p: usize,
    a: usize,
    b: usize,
    s: usize,
    q: usize,
    next: &[u8; 20000],
    n: usize,
    rows: &mut [u64; 6000],
)
    requires { (p < 24) × (a < 32) × (b ≤ n) × (s < 24) × (q < 24) × Nexts n next.now }
    ensures { ReturnTurns p a s q n next.now (λ ss. map (pair_return n ss (p ∷ a ∷ s ∷ q ∷ []) b) (upto (suc n))) rows.old rows.new }
{
    let width = n + 1;
    let u = p * width + b;
    let base = (b * 32 + a) * 25;
    'unders: for c in 0..width {
        let to = usize::from(next[base + c]);
        return_pair(u, s * width + c, q * width + to, rows);
    }
}

// One return of the first table, with every state of the second and every popped state.
fn by_return(
    p: usize,
    a: usize,
    s: usize,
    q: usize,
    next: &[u8; 20000],
    n: usize,
    rows: &mut [u64; 6000],
)
    requires { (p < 24) × (a < 32) × (s < 24) × (q < 24) × Nexts n next.now }
    ensures { ReturnTurns p a s q n next.now (λ ss. over_each n ss (p ∷ a ∷ s ∷ q ∷ [])) rows.old rows.new }
{
    'seconds: for b in 0..n + 1 {
        by_return_over(p, a, b, s, q, next, n, rows);
    }
}

// The returns of the first table, in file order.
pub fn by_returns(section: &[u8], next: &[u8; 20000], n: usize, rows: &mut [u64; 6000])
    requires { Named 4 24 section.now × Nexts n next.now }
    ensures { ReturnsTurn n section.now next.now rows.old rows.new }
{
    'records: for fields in section.chunks_exact(4) {
        let p = usize::from(fields[0]);
        let a = usize::from(fields[1]);
        let s = usize::from(fields[2]);
        let q = usize::from(fields[3]);
        by_return(p, a, s, q, next, n, rows);
    }
}

// Most tops of pairs, before the rounds: a row that changed is marked and looked at again. What is found is a top; that none is missing the rounds
// confirm, so nothing is asked of the marks, of the tops noted as done and of the places.
#![tactic(auto)]

ghost use Rattle.std.specs.Prelude.{◌<◌, ◌≤◌};
ghost use Rattle.fit_rounds.specs.Rows.{Named, Nexts};
ghost use Rattle.fit_links.specs.Quick.{AddsTops, Place, Places, WorklistInput, PushesOn, PopsOn, SpreadOn, LooksOn, LinksOn, AllLinks, AnyMarked};

use fit_links::{after_move, flow, gain, pair};
use fit_returns::pop_over;
use fit_rounds::{any, held, put};

// What the walk reads: the calls and returns of the first table, where the second goes by a call and by a return, and how many states the two have.
#[derive(Clone, Copy)]
struct Input<'a> {
    calls: &'a [u8],
    returns: &'a [u8],
    pushes: &'a [u8; 800],
    pops: &'a [u8; 20000],
    k: usize,
    n: usize,
    ghost reads: { WorklistInput calls.now returns.now pushes.now pops.now k n },
}

// The place of the first record of each state, or some other place where a state has none.
pub fn firsts(section: &[u8], width: usize) -> [usize; 24]
    requires { (3 ≤ width) × (width ≤ 4) }
    ensures { Places width section.now result }
{
    let mut places = [0usize; 24];
    let mut last: usize = 24;
    'records: for k in 0..section.len() / width {
        let at = k * width;
        let p = usize::from(section[at]);
        if p == last {
            continue 'records;
        }
        if p < 24 {
            places[p] = at;
        }
        last = p;
    }
    places
}

// By the calls of the state p from a place on: the pair of p and b is a top of where it goes.
fn push_all(
    from: usize,
    p: usize,
    b: usize,
    calls: &[u8],
    pushes: &[u8; 800],
    n: usize,
    rows: &mut [u64; 6000],
    marks: &mut [u8; 600],
)
    requires { Place 3 calls.now from × Named 3 24 calls.now × Nexts n pushes.now × (p < 24) × (b ≤ n) }
    ensures { PushesOn p b n calls.now pushes.now rows.old rows.new }
{
    let u = pair(p, b, n);
    'records: for fields in calls[from..].chunks_exact(3) {
        if usize::from(fields[0]) != p {
            return;
        }
        let a = usize::from(fields[1]);
        let q = usize::from(fields[2]);
        let v = pair(q, after_move(pushes, b, a, n), n);
        gain(v, u, rows, marks);
    }
}

// Over each pair on top of the pair of p and b that was not yet popped; a word without one is left at once.
fn pop_all(
    from: usize,
    p: usize,
    b: usize,
    returns: &[u8],
    pops: &[u8; 20000],
    k: usize,
    n: usize,
    rows: &mut [u64; 6000],
    links: &mut [u64; 6000],
    popped: &mut [u64; 6000],
    marks: &mut [u8; 600],
)
    requires { Place 4 returns.now from × Named 4 24 returns.now × Nexts n pops.now × (p < 24) × (b ≤ n) × (k ≤ 24) }
    ensures { PopsOn p b k n returns.now pops.now rows.old links.old rows.new links.new }
{
    let u = pair(p, b, n);
    let pairs = k * (n + 1);
    let mut y: usize = 0;
    'tops: while y < pairs {
        let i = u * 10 + y / 64;
        if rows[i] == popped[i] {
            y = (y / 64 + 1) * 64;
            continue 'tops;
        }
        if !held(rows, u, y) {
            y += 1;
            continue 'tops;
        }
        if held(popped, u, y) {
            y += 1;
            continue 'tops;
        }
        put(popped, u, y);
        pop_over(from, p, b, y, returns, pops, n, rows, links, marks);
        y += 1;
    }
}

// Along the links of the pair u; a word without one is left at once.
fn spread(
    u: usize,
    pairs: usize,
    rows: &mut [u64; 6000],
    links: &[u64; 6000],
    marks: &mut [u8; 600],
)
    requires { (u < 600) × (pairs ≤ 600) }
    ensures { SpreadOn u pairs links.now rows.old rows.new }
{
    let mut v: usize = 0;
    'links: while v < pairs {
        if links[u * 10 + v / 64] == 0 {
            v = (v / 64 + 1) * 64;
            continue 'links;
        }
        if !held(links, u, v) {
            v += 1;
            continue 'links;
        }
        flow(u, v, rows, marks);
        v += 1;
    }
}

// One look at the pair of p and b: what it pushes, what it pops, and along its links.
fn look(
    p: usize,
    b: usize,
    input: Input,
    pushing: usize,
    popping: usize,
    rows: &mut [u64; 6000],
    links: &mut [u64; 6000],
    popped: &mut [u64; 6000],
    marks: &mut [u8; 600],
)
    requires { Place 3 input.calls.now pushing × Place 4 input.returns.now popping × (p < input.k) × (b ≤ input.n) }
    ensures { LooksOn input.entry.calls.now input.entry.returns.now input.entry.pushes.now input.entry.pops.now input.entry.k input.entry.n
        rows.old links.old rows.new links.new }
{
    let k = input.k;
    let n = input.n;
    let u = pair(p, b, n);
    if !any(rows, u) {
        return;
    }
    push_all(pushing, p, b, input.calls, input.pushes, n, rows, marks);
    pop_all(
        popping,
        p,
        b,
        input.returns,
        input.pops,
        k,
        n,
        rows,
        links,
        popped,
        marks,
    );
    spread(u, k * (n + 1), rows, links, marks);
}

// One look at every pair that is marked.
fn pass(
    input: Input,
    pushing: &[usize; 24],
    popping: &[usize; 24],
    rows: &mut [u64; 6000],
    links: &mut [u64; 6000],
    popped: &mut [u64; 6000],
    marks: &mut [u8; 600],
)
    requires { Places 3 input.calls.now pushing.now × Places 4 input.returns.now popping.now }
    ensures { LooksOn input.entry.calls.now input.entry.returns.now input.entry.pushes.now input.entry.pops.now input.entry.k input.entry.n
        rows.old links.old rows.new links.new }
{
    let width = input.n + 1;
    let pairs = input.k * width;
    'pairs: for u in 0..pairs {
        if marks[u] == 0 {
            continue 'pairs;
        }
        marks[u] = 0;
        let p = u / width;
        let at = pushing[p];
        let from = popping[p];
        look(p, u % width, input, at, from, rows, links, popped, marks);
    }
}

// One of the first pairs is marked.
fn any_marked(marks: &[u8; 600], pairs: usize) -> bool
    requires { pairs ≤ 600 }
    ensures { AnyMarked marks.now pairs result }
{
    'pairs: for u in 0..pairs {
        if marks[u] != 0 {
            return true;
        }
    }
    false
}

// An internal of the first table, with every state of the second, is a link.
fn inner_link(p: usize, a: usize, q: usize, moves: &[u8; 800], n: usize, links: &mut [u64; 6000])
    requires { (p < 24) × (a < 32) × (q < 24) × Nexts n moves.now }
    ensures { LinksOn p a q n moves.now links.old links.new }
{
    'seconds: for b in 0..n + 1 {
        let u = pair(p, b, n);
        let v = pair(q, after_move(moves, b, a, n), n);
        put(links, u, v);
    }
}

// All of them.
fn inner_links(internals: &[u8], moves: &[u8; 800], n: usize, links: &mut [u64; 6000])
    requires { Named 3 24 internals.now × Nexts n moves.now }
    ensures { AllLinks n internals.now moves.now links.old links.new }
{
    'records: for fields in internals.chunks_exact(3) {
        let p = usize::from(fields[0]);
        let a = usize::from(fields[1]);
        let q = usize::from(fields[2]);
        inner_link(p, a, q, moves, n, links);
    }
}

// Looks until no pair is marked, so many passes at most.
fn looks(input: Input, rows: &mut [u64; 6000], links: &mut [u64; 6000])
    ensures { LooksOn input.entry.calls.now input.entry.returns.now input.entry.pushes.now input.entry.pops.now input.entry.k input.entry.n
        rows.old links.old rows.new links.new }
{
    let pushing = firsts(input.calls, 3);
    let popping = firsts(input.returns, 4);
    let pairs = input.k * (input.n + 1);
    let mut popped = [0u64; 6000];
    let mut marks = [1u8; 600];
    'passes: for _ in 0..360601 {
        if !any_marked(&marks, pairs) {
            return;
        }
        pass(
            input,
            &pushing,
            &popping,
            rows,
            links,
            &mut popped,
            &mut marks,
        );
    }
}

// Tops of pairs that the rows do not yet hold: all of them, as the rounds confirm.
pub fn quick(
    internals: &[u8],
    calls: &[u8],
    returns: &[u8],
    moves: &[u8; 800],
    pushes: &[u8; 800],
    pops: &[u8; 20000],
    k: usize,
    n: usize,
    rows: &mut [u64; 6000],
)
    requires { WorklistInput calls.now returns.now pushes.now pops.now k n × Named 3 24 internals.now × Nexts n moves.now }
    ensures { AddsTops internals.now calls.now returns.now moves.now pushes.now pops.now k n
        rows.old rows.new }
{
    let mut links = [0u64; 6000];
    inner_links(internals, moves, n, &mut links);
    let input = Input {
        calls,
        returns,
        pushes,
        pops,
        k,
        n,
    };
    looks(input, rows, &mut links);
}

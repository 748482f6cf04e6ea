// What one pair of states hands to another while their tops are walked: rows that gain tops, and links along which they flow. A row that changed is marked.
#![tactic(auto)]

ghost use Rattle.std.specs.Prelude.{◌≡◌, ◌+◌, ◌*◌, ◌<◌, ◌≤◌, get_or};
ghost use Rattle.fit_rounds.specs.Rows.{Nexts};
ghost use Rattle.fit_links.specs.Quick.{covered_in, FlowOn, GainOn, LinkOn};

use fit_rounds::{held, join, put};

// Row v has every bit of row u.
fn covers(rows: &[u64; 6000], u: usize, v: usize) -> bool
    requires { (u < 600) × (v < 600) }
    ensures { result ≡ covered_in 10 u v rows.now }
{
    'words: for k in 0..10 {
        let i = v * 10 + k;
        if (rows[i] | rows[u * 10 + k]) != rows[i] {
            return false;
        }
    }
    true
}

// Row v gains the bits of row u; it is marked if it changed.
pub fn flow(u: usize, v: usize, rows: &mut [u64; 6000], marks: &mut [u8; 600])
    requires { (u < 600) × (v < 600) }
    ensures { FlowOn u v rows.old rows.new }
{
    if covers(rows, u, v) {
        return;
    }
    join(rows, u, v);
    marks[v] = 1;
}

// Row v gains the pair x; it is marked if it changed.
pub fn gain(v: usize, x: usize, rows: &mut [u64; 6000], marks: &mut [u8; 600])
    requires { (v < 600) × (x < 600) }
    ensures { GainOn v x rows.old rows.new }
{
    if held(rows, v, x) {
        return;
    }
    put(rows, v, x);
    marks[v] = 1;
}

// The link from y to v, and what flows along it at once.
pub fn link(
    y: usize,
    v: usize,
    rows: &mut [u64; 6000],
    links: &mut [u64; 6000],
    marks: &mut [u8; 600],
)
    requires { (y < 600) × (v < 600) }
    ensures { LinkOn y v rows.old links.old rows.new links.new }
{
    if held(links, y, v) {
        return;
    }
    put(links, y, v);
    flow(y, v, rows, marks);
}

// The number of a pair.
pub fn pair(p: usize, b: usize, n: usize) -> usize
    requires { (p < 24) × (b ≤ n) × (n ≤ 24) }
    ensures { (result ≡ p * (n + 1) + b) × (result < 600) }
{
    p * (n + 1) + b
}

// Where the second table goes from b by a move.
pub fn after_move(next: &[u8; 800], b: usize, a: usize, n: usize) -> usize
    requires { Nexts n next.now × (b ≤ n) × (a < 32) }
    ensures { (result ≡ get_or next.now (b * 32 + a) 0) × (result ≤ n) }
{
    usize::from(next[b * 32 + a])
}

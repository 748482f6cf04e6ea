// What a pair of states pops is linked with the pair that it goes to.
#![tactic(auto)]

ghost use Rattle.std.specs.Prelude.{◌≡◌, ◌+◌, ◌*◌, ◌<◌, ◌≤◌, get_or};
ghost use Rattle.fit_rounds.specs.Rows.{Named, Nexts};
ghost use Rattle.fit_links.specs.Quick.{Place, PopsOver};

use fit_links::{link, pair};

// Where it goes from b by a return over c.
fn after_return(next: &[u8; 20000], b: usize, a: usize, c: usize, n: usize) -> usize
    requires { Nexts n next.now × (b ≤ n) × (a < 32) × (c ≤ n) }
    ensures { (result ≡ get_or next.now ((b * 32 + a) * 25 + c) 0) × (result ≤ n) }
{
    usize::from(next[(b * 32 + a) * 25 + c])
}

// By the returns of the state p from a place on: where the pair of p and b goes when it pops y is linked with y.
pub fn pop_over(
    from: usize,
    p: usize,
    b: usize,
    y: usize,
    returns: &[u8],
    pops: &[u8; 20000],
    n: usize,
    rows: &mut [u64; 6000],
    links: &mut [u64; 6000],
    marks: &mut [u8; 600],
)
    requires { Place 4 returns.now from × Named 4 24 returns.now × Nexts n pops.now × (p < 24) × (b ≤ n) × (y < 600) }
    ensures { PopsOver p b y n returns.now pops.now rows.old links.old rows.new links.new }
{
    let width = n + 1;
    let under = y / width;
    let c = y % width;
    'records: for fields in returns[from..].chunks_exact(4) {
        if usize::from(fields[0]) != p {
            return;
        }
        if usize::from(fields[2]) != under {
            continue 'records;
        }
        let a = usize::from(fields[1]);
        let q = usize::from(fields[3]);
        let v = pair(q, after_return(pops, b, a, c, n), n);
        link(y, v, rows, links, marks);
    }
}

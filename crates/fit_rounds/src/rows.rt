// The tops of up to 600 pairs: a row of ten 64-bit words for each pair, bit x for the pair x on top, the bit past the last pair for the bottom.
ghost use Rattle.std.specs.Prelude.{◌≡◌, ◌==◌, ◌<◌, not};
ghost use Rattle.lists.specs.Lists.{any};
ghost use Rattle.fit_rounds.specs.Rows.{HasBit, HasAny, GainsBit, GainsRow};

use bits::{bit, has_bit};

// Bit x is in row u.
pub fn held(rows: &[u64; 6000], u: usize, x: usize) -> bool
    requires { (u < 600) × (x < 640) }
    ensures { HasBit rows.now u x result }
{
    let i = u * 10 + x / 64;
    has_bit(rows[i], x % 64)
}

// Row u gains bit x.
pub fn put(rows: &mut [u64; 6000], u: usize, x: usize)
    requires { (u < 600) × (x < 640) }
    ensures { GainsBit u x rows.old rows.new }
{
    let i = u * 10 + x / 64;
    rows[i] |= bit(x % 64);
}

// Row v gains the bits of row u.
pub fn join(rows: &mut [u64; 6000], u: usize, v: usize)
    requires { (u < 600) × (v < 600) }
    ensures { GainsRow u v rows.old rows.new }
{
    'words: for k in 0..10 {
        let i = v * 10 + k;
        rows[i] |= rows[u * 10 + k];
    }
}

// Some word is not 0.
fn some_set(words: &[u64]) -> bool
    ensures { result ≡ any (λ w. not (w == 0)) words.now }
{
    words.iter().any(|word| *word != 0)
}

// Some bit is in row u.
pub fn any(rows: &[u64; 6000], u: usize) -> bool
    requires { u < 600 }
    ensures { HasAny rows.now u result }
{
    some_set(&rows[u * 10..u * 10 + 10])
}

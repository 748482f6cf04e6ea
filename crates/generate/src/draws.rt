// The draws: which of the possible records of a section are present.
ghost use Rattle.std.specs.Prelude.{◌≡◌, ◌*◌, ◌%◌, ◌^◌, ◌<◌, length};
ghost use Rattle.generate_spec.specs.Loads.{draw, possible};
ghost use Rattle.generate.specs.Draws.{Shape, tails, record_at, Draws};

// What the draws of a section give where the records present fit: how many there are, and the last s.
#[derive(Clone, Copy)]
pub struct Drawn {
    pub count: usize,
    pub s: u32,
}

// The product modulo 2 to the 32.
fn wrapping_mul(x: u32, y: u32) -> u32
    ensures { result ≡ x * y % 2 ^ 32 }
{
    (x as u64 * y as u64 % 4294967296) as u32
}

// "s times 1,664,525 plus 1,013,904,223, modulo 2 to the 32"
fn step(s: u32) -> u32
    ensures { result ≡ draw s }
{
    std::num::wrapping_add_u32(wrapping_mul(s, 1664525), 1013904223)
}

// How many records of a width there are to a state and a symbol.
fn tails_of(width: usize, states: usize) -> usize
    requires { Shape width states 0 0 }
    ensures { result ≡ tails width states }
{
    if width == 3 {
        return states;
    }
    states * states
}

// The possible record with a number, as a key.
fn key_at(width: usize, states: usize, from: usize, symbols: usize, at: usize) -> u32
    requires { Shape width states from symbols × (at < length (possible width states from symbols)) }
    ensures { result ≡ record_at (possible width states from symbols) at }
{
    let tails = tails_of(width, states);
    let state = at / (symbols * tails);
    let rest = at % (symbols * tails);
    let symbol = from + rest / tails;
    let tail = rest % tails;
    let both = state * 256 + symbol;
    if width == 3 {
        return (both * 256 + tail) as u32;
    }
    ((both * 256 + tail / states) * 256 + tail % states) as u32
}

// The records of a section that are present, as keys: each possible record, in file order, takes one draw. Nothing where there is no room for all of them.
pub fn collect(
    width: usize,
    states: usize,
    from: usize,
    symbols: usize,
    density: u32,
    seed: u32,
    keys: &mut [u32],
) -> Option<Drawn>
    requires { Shape width states from symbols }
    ensures { Draws density seed (possible width states from symbols) (length keys.old) result keys.new }
{
    let all = states * (symbols * tails_of(width, states));
    let mut s = seed;
    let mut count: usize = 0;
    'records: for next in 0..all {
        s = step(s);
        if density <= s / 65536 {
            continue 'records;
        }
        if count == keys.len() {
            return None;
        }
        keys[count] = key_at(width, states, from, symbols, next);
        count += 1;
    }
    Some(Drawn { count, s })
}

// The states of two tables combined, and the version.
ghost use Rattle.std.specs.Prelude.{◌≡◌, ◌&&◌, ◌*◌, ◌<◌, ◌≤◌, length, get_or};
ghost use Rattle.lists.specs.Lists.{over};
ghost use Rattle.table_spec.specs.Reading.{is_initial};
ghost use Rattle.quotient_spec.specs.Quotient.{bit_of};
ghost use Rattle.combine_spec.specs.Combine.{pair_byte, later_version};
ghost use Rattle.combine_spec.specs.declared.How.TheVariants.{Intersection, Union};
ghost use Rattle.combine.specs.Parts.{state_count, state_bytes};

use combine_spec::How;

// How many states there are.
pub fn state_count(how: How, firsts: usize, seconds: usize) -> usize
    requires { (firsts ≤ 40) × (seconds ≤ 40) }
    ensures { result ≡ state_count how firsts seconds }
{
    match how {
        How::Intersection => firsts * seconds,
        How::Union => firsts + seconds,
    }
}

// Both are odd.
fn both(x: u8, y: u8) -> u8
    ensures within { result ≤ 1 }
    ensures told { result ≡ bit_of (is_initial x && is_initial y) }
{
    if x % 2 != 1 {
        return 0;
    }
    if y % 2 != 1 {
        return 0;
    }
    1
}

// The byte of a pair.
fn pair_byte(x: u8, y: u8) -> u8
    ensures { result ≡ pair_byte x y }
{
    both(x, y) + 2 * both(x / 2, y / 2) + 4 * (x / 4)
}

// The byte of a state of the product.
fn product_byte(first: &[u8], second: &[u8], state: usize) -> u8
    requires { state < length first.now * length second.now }
    ensures { result ≡ get_or (state_bytes Intersection first.now second.now) state 0 }
{
    let seconds = second.len();
    let p = state / seconds;
    let q = state % seconds;
    pair_byte(first[p], second[q])
}

// The byte of a state of the sum.
fn sum_byte(first: &[u8], second: &[u8], state: usize) -> u8
    requires { state < state_count Union (length first.now) (length second.now) }
    ensures { result ≡ get_or (state_bytes Union first.now second.now) state 0 }
{
    let firsts = first.len();
    if state < firsts {
        return first[state];
    }
    second[state - firsts]
}

// The byte of a state.
fn state_byte(how: How, first: &[u8], second: &[u8], state: usize) -> u8
    requires { state < state_count how (length first.now) (length second.now) }
    ensures { result ≡ get_or (state_bytes how first.now second.now) state 0 }
{
    match how {
        How::Intersection => product_byte(first, second, state),
        How::Union => sum_byte(first, second, state),
    }
}

// The states' bytes to the front of a buffer.
pub fn put_states(how: How, first: &[u8], second: &[u8], states: usize, out: &mut [u8])
    requires { (states ≡ state_count how (length first.now) (length second.now)) × (states ≤ length out.old) }
    ensures { out.new ≡ over (state_bytes how first.now second.now) out.old }
{
    'states: for q in 0..states {
        out[q] = state_byte(how, first, second, q);
    }
}

// "The version is 2 where either input's is, else 1."
pub fn later_version(first: usize, second: usize) -> usize
    ensures { result ≡ later_version first second }
{
    if first == 2 {
        return 2;
    }
    if second == 2 {
        return 2;
    }
    1
}

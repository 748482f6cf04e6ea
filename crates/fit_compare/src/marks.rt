// Which pairs are initial, and which accept: the first does and the second does not.
ghost use Rattle.std.specs.Prelude.{◌≡◌, ◌<◌, ◌≤◌, length, get_or};
ghost use Rattle.table_spec.specs.Reading.{is_initial, is_accepting};
ghost use Rattle.fit_spec.specs.Fit.{pair_byte};
ghost use Rattle.fit_compare.specs.Compared.{EndsAt, StartAt, EndsTold, StartsTold};

use fit_rounds::{held, put};

// A state's byte; 0 past the count.
fn byte_at(states: &[u8], q: usize) -> u8
    ensures { result ≡ get_or states.now q 0 }
{
    states.get(q).copied().unwrap_or(0)
}

// The first accepts and the second does not.
fn accepts(first: u8, second: u8) -> bool
    ensures { result ≡ is_accepting (pair_byte first second) }
{
    first / 2 % 2 == 1 && second / 2 % 2 != 1
}

// The pair u of such states has the bottom among its tops.
fn ends_at(first: u8, second: u8, rows: &[u64; 6000], u: usize, bottom: usize) -> bool
    requires { (u < 600) × (bottom < 640) }
    ensures { EndsAt (pair_byte first second) u bottom rows.now result }
{
    if accepts(first, second) {
        return held(rows, u, bottom);
    }
    false
}

// Some pair that accepts has the bottom among its tops.
pub fn any_ends(first: &[u8], second: &[u8], rows: &[u64; 6000]) -> bool
    requires { (length first.now ≤ 24) × (length second.now ≤ 24) }
    ensures { EndsTold first.now second.now rows.now result }
{
    let width = second.len() + 1;
    let bottom = first.len() * width;
    'pairs: for u in 0..bottom {
        let p = byte_at(first, u / width);
        let q = byte_at(second, u % width);
        if ends_at(p, q, rows, u, bottom) {
            return true;
        }
    }
    false
}

// Both are initial.
fn starts(first: u8, second: u8) -> bool
    ensures { result ≡ is_initial (pair_byte first second) }
{
    first % 2 == 1 && second % 2 == 1
}

// The pair u of such states gains the bottom.
fn start_at(first: u8, second: u8, u: usize, bottom: usize, rows: &mut [u64; 6000])
    requires { (u < 600) × (bottom < 640) }
    ensures { StartAt (pair_byte first second) u bottom rows.old rows.new }
{
    if starts(first, second) {
        put(rows, u, bottom);
    }
}

// An initial pair has the bottom, from rows without a bit.
pub fn start_rows(first: &[u8], second: &[u8], rows: &mut [u64; 6000])
    requires { (length first.now ≤ 24) × (length second.now ≤ 24) }
    ensures { StartsTold first.now second.now rows.old rows.new }
{
    let width = second.len() + 1;
    let bottom = first.len() * width;
    'pairs: for u in 0..bottom {
        let p = byte_at(first, u / width);
        let q = byte_at(second, u % width);
        start_at(p, q, u, bottom, rows);
    }
}

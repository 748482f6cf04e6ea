// The lines that the program prints, put into a buffer one after the other.
#![tactic(auto)]

ghost use Rattle.std.specs.Prelude.{◌+◌, ◌*◌, ◌≤◌, length};
ghost use Rattle.print_spec.specs.Lines.{Put, spent_text, counts_text, map_text, table_text};

mod digits;
mod records;

use digits::put_hex;
pub use digits::{put, put_number};
pub use records::put_records;

// Whether the budget was spent.
fn put_spent(spent: bool, text: &mut [u8], at: usize) -> usize
    requires { at + 6 ≤ length text.old }
    ensures put { Put (spent_text spent) at text.old result text.new }
    ensures few { result ≤ at + 6 }
{
    if spent {
        return put(b" spent", text, at);
    }
    at
}

// The first line ends in ` joined J of U`, then ` spent` where that is so.
pub fn put_counts(
    states: usize,
    classes: usize,
    guesses: u64,
    words: usize,
    joined: usize,
    ceiling: usize,
    spent: bool,
    text: &mut [u8],
) -> usize
    requires { 300 ≤ length text.old }
    ensures put { Put (counts_text states classes guesses words joined ceiling spent) 0 text.old result text.new }
    ensures few { result ≤ 300 }
{
    let mut at = put_number(b"states ", states as u64, text, 0);
    at = put_number(b" classes ", classes as u64, text, at);
    at = put_number(b" guesses ", guesses, text, at);
    at = put_number(b" words ", words as u64, text, at);
    at = put_number(b" joined ", joined as u64, text, at);
    at = put_number(b" of ", ceiling as u64, text, at);
    at = put_spent(spent, text, at);
    put(b"\n", text, at)
}

// "class by state"
pub fn put_map(map: &[u8], text: &mut [u8], at: usize) -> usize
    requires { at + 21 * length map.now + 4 ≤ length text.old }
    ensures put { Put (map_text map.now) at text.old result text.new }
    ensures few { result ≤ at + 21 * length map.now + 4 }
{
    let mut to = put(b"map", text, at);
    'states: for class in map {
        to = put_number(b" ", u64::from(*class), text, to);
    }
    put(b"\n", text, to)
}

// "quotient bytes"
pub fn put_table(bytes: &[u8], text: &mut [u8], at: usize) -> usize
    requires { at + 3 * length bytes.now + 6 ≤ length text.old }
    ensures put { Put (table_text bytes.now) at text.old result text.new }
    ensures few { result ≤ at + 3 * length bytes.now + 6 }
{
    let from = put(b"table", text, at);
    put_hex(bytes, &mut text[from..]);
    put(b"\n", text, from + 3 * bytes.len())
}

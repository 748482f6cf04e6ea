// The fourth line that the program prints: how many records there are, and where they went.
ghost use Rattle.std.specs.Prelude.{◌+◌, ◌≤◌, length};
ghost use Rattle.print_spec.specs.Lines.{Put, records_text};

use super::digits::{put, put_number};

// `records N kept K folded F dead D`
pub fn put_records(
    all: usize,
    kept: usize,
    folded: usize,
    dead: usize,
    text: &mut [u8],
    at: usize,
) -> usize
    requires { at + 120 ≤ length text.old }
    ensures { Put (records_text all kept folded dead) at text.old result text.new }
{
    let mut to = put_number(b"records ", all as u64, text, at);
    to = put_number(b" kept ", kept as u64, text, to);
    to = put_number(b" folded ", folded as u64, text, to);
    to = put_number(b" dead ", dead as u64, text, to);
    put(b"\n", text, to)
}

// Reduces the table on standard input, with 100,000 guesses and 32,768 clause words, and prints the counts, the class of each state, the reduced
// table and where the records went; or the refusal. The text is made in a buffer and written at once.
#![tactic(auto)]

ghost use Rattle.std.specs.Prelude.{◌≡◌, ◌+◌, ◌≤◌, length, take, IfOk};
ghost use Rattle.io.specs.Counts.{IsPrefixLen};
ghost use Rattle.print_spec.specs.Program.{widest};
ghost use Rattle.check_spec.specs.Check.{check_number};
ghost use Rattle.print_spec.specs.Text.{going_text, printed};
ghost use Rattle.print_spec.specs.Lines.{Put};

use limits::Limits;
use print_lines::{put, put_counts, put_map, put_number, put_records, put_table};
use std::io;
use std::io::{Read, Write};

// "The program uses 40 and 64."
fn widest() -> Limits
    ensures { result ≡ widest }
{
    Limits {
        states: 40,
        symbols: 64,
    }
}

// Where the records of a table went under a map that the check accepts.
fn put_going(table: &[u8], map: &[u8], text: &mut [u8], at: usize) -> usize
    requires { (check_number widest table.now map.now ≡ 0) × (at + 120 ≤ length text.old) }
    ensures { Put (going_text table.now map.now) at text.old result text.new }
{
    let mut marks = [0u8; 6144];
    let recorded = records::records_accepted(widest(), table, map, &mut marks);
    match recorded {
        Ok(counts) => put_records(
            counts.all,
            counts.kept,
            counts.folded,
            counts.dead,
            text,
            at,
        ),
        Err(_) => at,
    }
}

// Reduces a table and puts what is to be printed into the text: how many bytes that is.
fn reduce_lent(table: &[u8], text: &mut [u8]) -> usize
    requires { length text.old ≡ 70000 }
    ensures text_after { take result text.new ≡ printed table.now }
    ensures there { IsPrefixLen result text.new }
{
    let limits = widest();
    let mut list = [0u16; 32768];
    let mut map = [0u8; 40];
    let mut out = [0u8; 22644];
    let answer = reduce::reduce_within(limits, table, 100000, &mut list, &mut map, &mut out);
    match answer {
        Ok(reduction) => {
            let n = reduce::state_count(limits, table);
            let mut at = put_counts(
                n,
                reduction.classes,
                reduction.guesses,
                reduction.words,
                reduction.joined,
                reduction.ceiling,
                reduction.spent,
                text,
            );
            at = put_map(&map[..n], text, at);
            let length = reduction.length;
            at = put_table(&out[..length], text, at);
            put_going(table, &map[..n], text, at)
        }
        Err(refusal) => {
            let at = put_number(b"refused ", u64::from(refusal), text, 0);
            put(b"\n", text, at)
        }
    }
}

// Reads until the buffer is full or the input ends: how many bytes that is.
fn read_full<R: Read>(input: &mut R, buffer: &mut [u8]) -> io::Result<usize>
    ensures { IfOk result (λ n. IsPrefixLen n buffer.new) }
{
    let mut done: usize = 0;
    'reads: while done < buffer.len() {
        let n = input.read(&mut buffer[done..])?;
        if n == 0 {
            break;
        }
        done += n;
    }
    Ok(done)
}

// A file longer than any table is read one byte past the limit, and so refused by 1. Where the text cannot be written whole, the other output is told.
fn main(rt: HostRuntime) -> io::Result<()> {
    let mut space = [0u8; 22645];
    let length = read_full(&mut rt.stdin(), &mut space)?;
    let mut text = [0u8; 70000];
    let n = reduce_lent(&space[..length], &mut text);
    let written = rt.stdout().write_all(&text[..n]);
    if written.is_err() {
        let _ = eprintln!(rt; "basilvault: standard output was not written whole");
    }
    written
}

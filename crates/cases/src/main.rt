// Runs the operations on the cases of its standard input, and prints each answer and every buffer.
//
// A case is ten numbers and four parts; a number is 16 bits, little-endian, where nothing else is said. The numbers: the length of all that follows;
// the operation, the state limit, the symbol limit; the lengths of the list, of the map buffer and of the output, at most 4096 each; the lengths of
// the first three parts. The parts: the operation's name, and then, by the operation,
//
//   1 read      nothing; nothing; the table
//   2 tops      nothing; nothing; the table
//   3 clauses   nothing; nothing; the table
//   4 search    the variables, the budget; nothing; the words of the list
//   5 check     the map; nothing; the table
//   6 quotient  the map; nothing; the table
//   7 reduce    the budget; nothing; the table
//   8 script    the script; nothing; the table
//   9 records   the map; nothing; the table
//   10 uses     the map; the lines; the table
//   11 season   the guesses; the tables' lengths, 64 bits each; the tables
//   12 generate the seed of 32 bits, states, internals, calls, returns, the density of 32 bits; nothing; nothing
//   13 fit      the first table; nothing; the second
//   14 choose   the first map; the second; the table
//   15 intersection  the first table; nothing; the second
//   16 union    the first table; nothing; the second
//
// A line is the name, the refusal's number or 0, the answer's values and, each after a bar, the buffers at exit, which are filled with 7
// beforehand. Choose prints which map it is, 1 or 2, or 0 with a refusal, and after the bar the map that is handed back.
#![tactic(auto)]

ghost use Rattle.std.specs.Prelude.{◌≡◌, ◌<◌, ◌≤◌, length, take, IfOk};
ghost use Rattle.io.specs.Counts.{IsPrefixLen};
ghost use Rattle.lists.specs.Lists.{over};
ghost use Rattle.cases.specs.Numbers.{word_at, double_at, long_at, words_in, longs_in};

use choose_spec::Which;
use combine_spec::How;
use limits::Limits;
use std::io;
use std::io::Read;

// Writes text to standard output.
fn say(to: &impl Print, text: &[u8]) -> io::Result<()> {
    to.write_all(text)
}

// A space and a number.
fn number(to: &impl Print, n: u64) -> io::Result<()> {
    print!(to; " {n}")
}

// Numbers, each after a space.
fn say_values(to: &impl Print, values: &[u64]) -> io::Result<()> {
    'values: for value in values {
        number(to, *value)?;
    }
    Ok(())
}

// The refusal's number; or 0, and the answer's values.
fn say_answer(to: &impl Print, refused: u32, values: &[u64]) -> io::Result<()> {
    number(to, refused as u64)?;
    if refused == 0 {
        say_values(to, values)?;
    }
    Ok(())
}

// A buffer of bytes, after a bar.
fn say_bytes(to: &impl Print, bytes: &[u8]) -> io::Result<()> {
    say(to, b" |")?;
    'bytes: for byte in bytes {
        number(to, u64::from(*byte))?;
    }
    Ok(())
}

// A buffer of words, after a bar.
fn say_words(to: &impl Print, words: &[u16]) -> io::Result<()> {
    say(to, b" |")?;
    'words: for word in words {
        number(to, u64::from(*word))?;
    }
    Ok(())
}

// The 16-bit number at a place, 0 past the end.
fn word_at(bytes: &[u8], at: usize) -> usize
    ensures { (result ≡ word_at bytes.now at) × (result < 65536) }
{
    if bytes.len() < 2 {
        return 0;
    }
    if bytes.len() - 2 < at {
        return 0;
    }
    (u64::from(bytes[at]) + 256 * u64::from(bytes[at + 1])) as usize
}

// The 32-bit number at a place.
fn double_at(bytes: &[u8], at: usize) -> u32
    requires { at < 256 }
    ensures { result ≡ double_at bytes.now at }
{
    word_at(bytes, at) as u32 + 65536 * word_at(bytes, at + 2) as u32
}

// The 64-bit number at a place.
fn long_at(bytes: &[u8], at: usize) -> u64
    requires { at < 128 }
    ensures { result ≡ long_at bytes.now at }
{
    double_at(bytes, at) as u64 + 4294967296 * double_at(bytes, at + 4) as u64
}

// As much of a space as the number at a place says, or all.
fn part_of<'a, T>(space: &'a mut [T], numbers: &[u8], at: usize) -> &'a mut [T]
    ensures { result.now ≡ take (word_at numbers.now at) space.old }
{
    let n = word_at(numbers, at);
    if space.len() < n {
        return space;
    }
    &mut space[..n]
}

// The five starts.
fn say_read(to: &impl Print, limits: Limits, table: &[u8]) -> io::Result<()> {
    let mut values = [0u64; 5];
    let refused = capi_answers::say(read::read_within(limits, table), &mut values);
    say_answer(to, refused, &values)
}

// The number of tops found, and the word of each state.
fn say_tops(to: &impl Print, limits: Limits, table: &[u8]) -> io::Result<()> {
    let mut words = [0u64; 40];
    let mut found = 0;
    match tops::tops_within(limits, table) {
        Ok(tops) => {
            number(to, 0)?;
            found = tops.found;
            words = tops.words;
        }
        Err(refusal) => number(to, u64::from(refusal))?,
    }
    number(to, u64::from(found))?;
    say_values(to, &words)
}

// Clauses and words, and the list.
fn say_clauses(to: &impl Print, limits: Limits, table: &[u8], case: &[u8]) -> io::Result<()> {
    let mut space = [7u16; 4096];
    let list = part_of(&mut space, case, 6);
    let mut values = [0u64; 2];
    let refused = capi_answers::say(clauses::clauses_within(limits, table, list), &mut values);
    say_answer(to, refused, &values)?;
    say_words(to, list)
}

// Fills a list with words from their bytes.
fn fill(list: &mut [u16], bytes: &[u8])
    ensures { list.new ≡ over (take (length list.old) (words_in bytes.now)) list.old }
{
    'words: for i in 0..list.len() {
        if bytes.len() / 2 <= i {
            return;
        }
        list[i] = word_at(bytes, 2 * i) as u16;
    }
}

// The guesses made, and the assignment.
fn say_search(
    to: &impl Print,
    limits: Limits,
    numbers: &[u8],
    words: &[u8],
    case: &[u8],
) -> io::Result<()> {
    let variables = word_at(numbers, 0);
    let budget = word_at(numbers, 2) as u64;
    let mut held = [0u16; 4096];
    let list = part_of(&mut held, case, 6);
    fill(list, words);
    let mut space = [7u8; 4096];
    let out = part_of(&mut space, case, 10);
    let mut values = [0u64; 1];
    let solution = search::search_within(limits, list, variables, budget, out);
    let refused = capi_answers::say(solution, &mut values);
    say_answer(to, refused, &values)?;
    say_bytes(to, out)
}

// The class count.
fn say_check(to: &impl Print, limits: Limits, map: &[u8], table: &[u8]) -> io::Result<()> {
    let mut values = [0u64; 1];
    let refused = capi_answers::say(check_map::check_within(limits, table, map), &mut values);
    say_answer(to, refused, &values)
}

// The length of the quotient, and the output.
fn say_quotient(
    to: &impl Print,
    limits: Limits,
    map: &[u8],
    table: &[u8],
    case: &[u8],
) -> io::Result<()> {
    let mut space = [7u8; 4096];
    let out = part_of(&mut space, case, 10);
    let mut values = [0u64; 1];
    let written = quotient::quotient_within(limits, table, map, out);
    let refused = capi_answers::say(written, &mut values);
    say_answer(to, refused, &values)?;
    say_bytes(to, out)
}

// The seven values of a reduction, and the list, the map buffer and the output.
fn say_reduce(
    to: &impl Print,
    limits: Limits,
    numbers: &[u8],
    table: &[u8],
    case: &[u8],
) -> io::Result<()> {
    let budget = word_at(numbers, 0) as u64;
    let mut words = [7u16; 4096];
    let mut states = [7u8; 4096];
    let mut space = [7u8; 4096];
    let list = part_of(&mut words, case, 6);
    let map = part_of(&mut states, case, 8);
    let out = part_of(&mut space, case, 10);
    let mut values = [0u64; 7];
    let reduction = reduce::reduce_within(limits, table, budget, list, map, out);
    let refused = capi_answers::say(reduction, &mut values);
    say_answer(to, refused, &values)?;
    say_words(to, list)?;
    say_bytes(to, map)?;
    say_bytes(to, out)
}

// 1 yes, 0 no.
fn say_script(to: &impl Print, limits: Limits, script: &[u8], table: &[u8]) -> io::Result<()> {
    let mut values = [0u64; 1];
    let refused = capi_answers::say(script::script_within(limits, table, script), &mut values);
    say_answer(to, refused, &values)
}

// Records, and those of them that are kept, folded and dead; and the output.
fn say_records(
    to: &impl Print,
    limits: Limits,
    map: &[u8],
    table: &[u8],
    case: &[u8],
) -> io::Result<()> {
    let mut space = [7u8; 4096];
    let out = part_of(&mut space, case, 10);
    let mut values = [0u64; 4];
    let recorded = records::records_within(limits, table, map, out);
    let refused = capi_answers::say(recorded, &mut values);
    say_answer(to, refused, &values)?;
    say_bytes(to, out)
}

// The sums by class, and the total.
fn say_uses(
    to: &impl Print,
    limits: Limits,
    map: &[u8],
    lines: &[u8],
    table: &[u8],
) -> io::Result<()> {
    let mut sums = [0u64; 40];
    let mut total = 0;
    match uses::uses_within(limits, table, map, lines) {
        Ok(counted) => {
            number(to, 0)?;
            total = counted.total;
            sums = counted.sums;
        }
        Err(refusal) => number(to, u64::from(refusal))?,
    }
    say_values(to, &sums)?;
    number(to, total)
}

// The lengths of 16 tables, from their bytes.
fn lengths_from(bytes: &[u8]) -> [u64; 16]
    ensures { result ≡ longs_in 16 bytes.now }
{
    let mut lengths = [0u64; 16];
    'lengths: for i in 0..16 {
        lengths[i] = long_at(bytes, 8 * i);
    }
    lengths
}

// The rows of a season's tables, and the list, the maps and the output.
fn say_season(
    to: &impl Print,
    limits: Limits,
    numbers: &[u8],
    sizes: &[u8],
    tables: &[u8],
    case: &[u8],
) -> io::Result<()> {
    let guesses = word_at(numbers, 0) as u64;
    let lengths = lengths_from(sizes);
    let k = sizes.len() / 8 % 17;
    let mut words = [7u16; 4096];
    let mut states = [7u8; 4096];
    let mut space = [7u8; 4096];
    let list = part_of(&mut words, case, 6);
    let maps = part_of(&mut states, case, 8);
    let out = part_of(&mut space, case, 10);
    let mut values = [0u64; 64];
    let season = season::season_within(limits, tables, &lengths[..k], guesses, list, maps, out);
    let refused = capi_answers::say(season, &mut values);
    say_answer(to, refused, &values)?;
    say_words(to, list)?;
    say_bytes(to, maps)?;
    say_bytes(to, out)
}

// The length of a random table, and the output.
fn say_generate(to: &impl Print, limits: Limits, numbers: &[u8], case: &[u8]) -> io::Result<()> {
    let mut space = [7u8; 4096];
    let out = part_of(&mut space, case, 10);
    let mut values = [0u64; 1];
    let written = generate::generate_within(
        limits,
        double_at(numbers, 0),
        word_at(numbers, 4),
        word_at(numbers, 6),
        word_at(numbers, 8),
        word_at(numbers, 10),
        double_at(numbers, 12),
        out,
    );
    let refused = capi_answers::say(written, &mut values);
    say_answer(to, refused, &values)?;
    say_bytes(to, out)
}

// 1 yes, 0 no.
fn say_fit(to: &impl Print, first: &[u8], second: &[u8]) -> io::Result<()> {
    let mut values = [0u64; 1];
    let refused = capi_answers::say(fit::fit(first, second), &mut values);
    say_answer(to, refused, &values)
}

// The length of two tables combined, and the output.
fn say_combine(
    to: &impl Print,
    limits: Limits,
    first: &[u8],
    second: &[u8],
    how: How,
    case: &[u8],
) -> io::Result<()> {
    let mut space = [7u8; 4096];
    let out = part_of(&mut space, case, 10);
    let mut values = [0u64; 1];
    let written = combine::combine_within(limits, first, second, how, out);
    let refused = capi_answers::say(written, &mut values);
    say_answer(to, refused, &values)?;
    say_bytes(to, out)
}

// Which map it is, 1 or 2, or 0 with a refusal, and the map that is handed back.
fn say_choose<'a>(
    to: &impl Print,
    limits: Limits,
    first: &'a [u8],
    second: &'a [u8],
    table: &[u8],
) -> io::Result<()> {
    number(
        to,
        choose::choose_number_within(limits, table, first, second) as u64,
    )?;
    let chosen = match choose::decide_within(limits, table, first, second) {
        Ok(Which::First) => 1,
        Ok(Which::Second) => 2,
        Err(_) => 0,
    };
    number(to, chosen)?;
    say_bytes(to, choose::choose_within(limits, table, first, second))
}

// The answer and the buffers of a case, by its operation.
fn say_operation<'a>(
    to: &impl Print,
    case: &'a [u8],
    first: &'a [u8],
    second: &'a [u8],
    third: &'a [u8],
) -> io::Result<()> {
    let limits = Limits {
        states: word_at(case, 2),
        symbols: word_at(case, 4),
    };
    match word_at(case, 0) {
        1 => say_read(to, limits, third),
        2 => say_tops(to, limits, third),
        3 => say_clauses(to, limits, third, case),
        4 => say_search(to, limits, first, third, case),
        5 => say_check(to, limits, first, third),
        6 => say_quotient(to, limits, first, third, case),
        7 => say_reduce(to, limits, first, third, case),
        8 => say_script(to, limits, first, third),
        9 => say_records(to, limits, first, third, case),
        10 => say_uses(to, limits, first, second, third),
        11 => say_season(to, limits, first, second, third, case),
        12 => say_generate(to, limits, first, case),
        13 => say_fit(to, first, third),
        14 => say_choose(to, limits, first, second, third),
        15 => say_combine(to, limits, first, third, How::Intersection, case),
        16 => say_combine(to, limits, first, third, How::Union, case),
        _ => Ok(()),
    }
}

// The line of a case.
fn say_case(to: &impl Print, case: &[u8]) -> io::Result<()> {
    let first = 18 + word_at(case, 12);
    let second = first + word_at(case, 14);
    let third = second + word_at(case, 16);
    if case.len() < third {
        return Ok(());
    }
    say(to, &case[18..first])?;
    say_operation(
        to,
        case,
        &case[first..second],
        &case[second..third],
        &case[third..],
    )?;
    say(to, b"\n")
}

// Reads until the buffer is full or the input ends: how many bytes that is.
fn read_full<R: Read>(input: &mut R, buffer: &mut [u8]) -> io::Result<usize>
    ensures { IfOk result (λ n. IsPrefixLen n buffer.new) }
{
    let mut done: usize = 0;
    'reads: while done < buffer.len() {
        let n = input.read(&mut buffer[done..])?;
        if n == 0 {
            break;
        }
        done += n;
    }
    Ok(done)
}

// One case; false at the end of the input.
fn next_case<R: Read>(input: &mut R, to: &impl Print) -> io::Result<bool> {
    let mut length = [0u8; 2];
    if read_full(input, &mut length)? < 2 {
        return Ok(false);
    }
    let mut space = [0u8; 65536];
    let case = part_of(&mut space, &length, 0);
    read_full(input, case)?;
    say_case(to, case)?;
    Ok(true)
}

// Every case of the input, one after the other.
fn main(rt: HostRuntime) -> io::Result<()> {
    let mut input = rt.stdin();
    'cases: for _ in 0..1000000 {
        if !next_case(&mut input, &rt)? {
            return Ok(());
        }
    }
    Ok(())
}

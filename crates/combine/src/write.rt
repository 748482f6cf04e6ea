// The table of two combined, written by the keys of its records.
ghost use Rattle.std.specs.Prelude.{◌≡◌, length};
ghost use Rattle.table_spec.specs.File.{bytes_of, records};
ghost use Rattle.table_write.specs.Keys.{keys_of};
ghost use Rattle.table_write.specs.Tables.{keyed_table, written_for};
ghost use Rattle.combine_keys.specs.Adding.{Collected};
ghost use Rattle.combine.specs.Parts.{state_bytes, section_records, Sections, Combined, Few, combined_for};

use super::states::{later_version, put_states, state_count};
use combine_spec::How;
use refusals::Refusal;
use table_spec::Starts;
use table_view::{Section, part};

// The keys of a section's records; how many there are, or nothing where there is no room for all of them.
fn section_keys(
    how: How,
    width: usize,
    firsts: usize,
    seconds: usize,
    symbols: usize,
    first: &[u8],
    second: &[u8],
    keys: &mut [u32],
) -> Option<usize>
    requires { Sections how width firsts seconds symbols first.now second.now }
    ensures { Collected (length keys.old)
        (keys_of (section_records how firsts seconds (records width first.now) (records width second.now)))
        keys.new result }
{
    match how {
        How::Intersection => {
            combine_keys::product(width, firsts, seconds, symbols, first, second, keys)
        }
        How::Union => combine_keys::sum(width, firsts, first, second, keys),
    }
}

// The table whose records are given by their keys: its length is known before anything is written.
fn write_keys(
    how: How,
    version: usize,
    symbols: &[u8],
    first: &[u8],
    second: &[u8],
    moves: &[u32],
    pushes: &[u32],
    pops: &[u32],
    out: &mut [u8],
) -> Result<usize, Refusal>
    requires { Few how symbols.now first.now second.now moves.now pushes.now pops.now }
    ensures { record { answer = result; out = out.new }
        ≡ written_for
        (bytes_of (keyed_table version symbols.now (state_bytes how first.now second.now) moves.now pushes.now pops.now))
        out.old }
{
    let states = state_count(how, first.len(), second.len());
    let records = 3 * moves.len() + 3 * pushes.len() + 4 * pops.len();
    let length = symbols.len() + states + records + 12;
    if out.len() < length {
        return Err(Refusal::OutputLength);
    }
    let mut state_bytes = [0u8; 40];
    put_states(how, first, second, states, &mut state_bytes);
    table_write::put_table(
        version,
        symbols,
        &state_bytes[..states],
        moves,
        pushes,
        pops,
        out,
    );
    Ok(length)
}

// Two tables that were read, where 37 and 35 do not apply: refused by 36 or 21, or written.
pub fn write_combined(
    how: How,
    first: &[u8],
    one: Starts,
    second: &[u8],
    two: Starts,
    out: &mut [u8],
) -> Result<usize, Refusal>
    requires { Combined how first.now one second.now two }
    ensures { record { answer = result; out = out.new } ≡ combined_for how first.now second.now out.old }
{
    let symbols = part(first, one, Section::Symbols);
    let own = part(first, one, Section::States);
    let other = part(second, two, Section::States);
    let n = own.len();
    let m = other.len();
    let k = symbols.len();
    let internals = part(first, one, Section::Internals);
    let others = part(second, two, Section::Internals);
    let mut moves = [0u32; 1024];
    let Some(i) = section_keys(how, 3, n, m, k, internals, others, &mut moves) else {
        return Err(Refusal::LoadRecords);
    };
    let calls = part(first, one, Section::Calls);
    let others = part(second, two, Section::Calls);
    let mut pushes = [0u32; 1024];
    let Some(c) = section_keys(how, 3, n, m, k, calls, others, &mut pushes) else {
        return Err(Refusal::LoadRecords);
    };
    let returns = part(first, one, Section::Returns);
    let others = part(second, two, Section::Returns);
    let mut pops = [0u32; 4096];
    let Some(r) = section_keys(how, 4, n, m, k, returns, others, &mut pops) else {
        return Err(Refusal::LoadRecords);
    };
    let version = later_version(read::version_of(first), read::version_of(second));
    write_keys(
        how,
        version,
        symbols,
        own,
        other,
        &moves[..i],
        &pushes[..c],
        &pops[..r],
        out,
    )
}

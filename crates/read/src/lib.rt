// The table file: reading it.
#![tactic(auto)]

ghost use Rattle.std.specs.Prelude.{◌≡◌, true, ◌+◌, ◌≤◌, ◌<◌, length};
ghost use Rattle.lists.specs.Lists.{first_failed};
ghost use Rattle.limits.specs.Limits.{standard, limits_fit};
ghost use Rattle.refusals.specs.Refusals.{tested};
ghost use Rattle.table_spec.specs.Limits.{longest};
ghost use Rattle.table_spec.specs.File.{word16, version, table_of};
ghost use Rattle.table_spec.specs.Reading.{version_fits, distances_fit, table_tests, starts_of, read_of, ReadSays};

use limits::{Limits, limits_fit};
use read_contents::test_contents;
use refusals::Refusal;
use table_spec::Starts;

// The longest file's bytes but for its symbols and states: every record section full, and the trailer.
const RECORDS_AND_TRAILER: usize = 22540;

// The 16-bit number at a place of the file.
#[tactic(auto, unfolding(table_spec::specs::File::word16))]
fn word_at(table: &[u8], at: usize) -> usize
    requires { at + 1 < length table.now }
    ensures { result ≡ word16 table.now at }
{
    usize::from(u16::from_le_bytes([table[at], table[at + 1]]))
}

// The file's version.
pub fn version_of(table: &[u8]) -> usize
    requires { 12 ≤ length table.now }
    ensures { result ≡ version table.now }
{
    word_at(table, table.len() - 2)
}

// 2: version 1 or 2.
#[tactic(auto, unfolding(table_spec::specs::Reading::version_fits))]
fn version_fits(version: usize) -> bool
    ensures { result ≡ version_fits version }
{
    version == 1 || version == 2
}

// 3: the five distances.
fn distances_fit(table: &[u8], end: usize) -> bool
    requires { end + 12 ≡ length table.now }
    ensures { result ≡ distances_fit table.now }
{
    let symbols = word_at(table, end);
    let states = word_at(table, end + 2);
    let internals = word_at(table, end + 4);
    let calls = word_at(table, end + 6);
    let returns = word_at(table, end + 8);
    symbols == end
        && states <= symbols
        && internals <= states
        && calls <= internals
        && returns <= calls
        && (internals - calls) % 3 == 0
        && (calls - returns) % 3 == 0
        && returns % 4 == 0
}

// The five section starts, by the distances.
fn starts_at(table: &[u8], end: usize) -> Starts
    requires { (end + 12 ≡ length table.now) × (distances_fit table.now ≡ true) }
    ensures { result ≡ starts_of table.now }
{
    Starts {
        symbols: end - word_at(table, end),
        states: end - word_at(table, end + 2),
        internals: end - word_at(table, end + 4),
        calls: end - word_at(table, end + 6),
        returns: end - word_at(table, end + 8),
    }
}

// 4 to 8, of the file's table: the first that applies is the refusal. Each section is handed on as a part of the file.
fn test_sections(
    limits: Limits,
    table: &[u8],
    versioned: usize,
    starts: Starts,
    end: usize,
) -> Result<(), Refusal>
    requires { (end + 12 ≡ length table.now) × (distances_fit table.now ≡ true) × (starts ≡ starts_of table.now) × (versioned ≡ version table.now) }
    ensures { result ≡ tested (first_failed (table_tests limits (table_of table.now))) }
{
    let symbols = starts.symbols;
    let states = starts.states;
    let internals = starts.internals;
    let calls = starts.calls;
    let returns = starts.returns;
    test_contents(
        limits,
        versioned,
        &table[symbols..states],
        &table[states..internals],
        &table[internals..calls],
        &table[calls..returns],
        &table[returns..end],
    )
}

// The longest file at the limits.
fn longest_file(limits: Limits) -> usize
    requires { limits_fit limits ≡ true }
    ensures { result ≡ longest limits }
{
    limits.symbols + limits.states + RECORDS_AND_TRAILER
}

// Reads a table at limits to which 39 does not apply.
fn read_fit(limits: Limits, table: &[u8]) -> Result<Starts, Refusal>
    requires { limits_fit limits ≡ true }
    ensures { result ≡ read_of limits table.now }
{
    let length = table.len();
    if length < 12 {
        return Err(Refusal::Length);
    }
    let longest = longest_file(limits);
    if longest < length {
        return Err(Refusal::Length);
    }
    let end = length - 12;
    let versioned = version_of(table);
    if !version_fits(versioned) {
        return Err(Refusal::Version);
    }
    if !distances_fit(table, end) {
        return Err(Refusal::Distances);
    }
    let starts = starts_at(table, end);
    test_sections(limits, table, versioned, starts, end)?;
    Ok(starts)
}

// Reads a table at limits: the five section starts, or the first refusal that applies.
pub fn read_within(limits: Limits, table: &[u8]) -> Result<Starts, Refusal>
    ensures answers { result ≡ read_of limits table.now }
    ensures number { ReadSays limits table.now result }
{
    if !limits_fit(limits) {
        return Err(Refusal::LimitsRange);
    }
    read_fit(limits, table)
}

// Reads a table at the limits of a caller that gives none.
pub fn read(table: &[u8]) -> Result<Starts, Refusal>
    ensures answers { result ≡ read_of standard table.now }
    ensures number { ReadSays standard table.now result }
{
    read_within(limits::standard(), table)
}

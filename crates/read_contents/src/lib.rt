// What the five sections of a file hold: the tests 4 to 8 of reading.
#![tactic(auto)]

ghost use Rattle.std.specs.Prelude.{◌≡◌, [], ◌≤◌, ◌<◌, length, ltb};
ghost use Rattle.lists.specs.Lists.{any, all, first_failed};
ghost use Rattle.refusals.specs.Refusals.{tested};
ghost use Rattle.table_spec.specs.File.{records};
ghost use Rattle.table_spec.specs.Reading.{counts_fit, state_byte_most, bytes_fit, is_initial, record_fits, records_fit, ascend, order_fits, table_tests};
ghost use Rattle.table_view.specs.Sections.{sectioned};

use limits::Limits;
use refusals::Refusal;
use table_find::number_at;

// "At most 1,024" internals and calls, "At most 4,096" returns
const MOVES: usize = 1024;

const RETURNS: usize = 4096;

// Every byte is below a limit.
fn all_below(bytes: &[u8], limit: usize) -> bool
    ensures { result ≡ all (λ x. ltb x limit) bytes.now }
{
    bytes.iter().all(|x| usize::from(*x) < limit)
}

// Some state is initial.
#[tactic(auto, unfolding(table_spec::specs::Reading::is_initial))]
fn any_initial(states: &[u8]) -> bool
    ensures { result ≡ any is_initial states.now }
{
    states.iter().any(|byte| *byte % 2 == 1)
}

// One record of any width: its state, its symbol and the symbol's kind, and its further states.
fn record_fits(symbols: &[u8], states: &[u8], kind: u8, fields: &[u8]) -> bool
    ensures { result ≡ record_fits (sectioned 0 symbols.now states.now [] [] []) kind fields.now }
{
    if fields.len() < 2 {
        return false;
    }
    if states.len() <= usize::from(fields[0]) {
        return false;
    }
    let symbol = usize::from(fields[1]);
    if symbols.len() <= symbol {
        return false;
    }
    if symbols[symbol] != kind {
        return false;
    }
    all_below(&fields[2..], states.len())
}

// The records of a section, of any width.
fn records_fit(symbols: &[u8], states: &[u8], kind: u8, width: usize, section: &[u8]) -> bool
    requires { 0 < width }
    ensures { result ≡ all (record_fits (sectioned 0 symbols.now states.now [] [] []) kind) (records width section.now) }
{
    'records: for fields in section.chunks_exact(width) {
        if !record_fits(symbols, states, kind, fields) {
            return false;
        }
    }
    true
}

// The records of a section ascend, of 3 or 4 bytes each: each number is above the one before it.
fn ascends(width: usize, section: &[u8]) -> bool
    requires { (3 ≤ width) × (width ≤ 4) }
    ensures { result ≡ ascend (records width section.now) }
{
    if section.len() < width {
        return true;
    }
    let mut last = number_at(section, width, 0);
    'records: for fields in section[width..].chunks_exact(width) {
        let number = number_at(fields, width, 0);
        if number <= last {
            return false;
        }
        last = number;
    }
    true
}

// 4: the counts.
#[tactic(auto, using(crate::proofs::Numbers::counts))]
fn counts_fit(
    limits: Limits,
    symbols: &[u8],
    states: &[u8],
    internals: &[u8],
    calls: &[u8],
    returns: &[u8],
) -> bool
    ensures { result ≡ counts_fit limits (sectioned 0 symbols.now states.now internals.now calls.now returns.now) }
{
    symbols.len() <= limits.symbols
        && 1 <= states.len()
        && states.len() <= limits.states
        && internals.len() / 3 <= MOVES
        && calls.len() / 3 <= MOVES
        && returns.len() / 4 <= RETURNS
}

// The version's limit of a state byte: "3", or "63".
#[tactic(auto, unfolding(table_spec::specs::Reading::state_byte_most))]
fn state_byte_most(version: usize) -> usize
    ensures { result ≡ state_byte_most version }
{
    if version == 2 { 63 } else { 3 }
}

// 5: the bytes of the symbols and the states.
#[tactic(auto, using(crate::proofs::Numbers::bytes, table_spec::proofs::Versions::byte_most))]
fn bytes_fit(version: usize, symbols: &[u8], states: &[u8]) -> bool
    ensures { result ≡ bytes_fit (sectioned version symbols.now states.now [] [] []) }
{
    all_below(symbols, 3) && all_below(states, state_byte_most(version) + 1)
}

// 7: the records of the three sections, each of its kind and width.
#[tactic(auto, using(crate::proofs::Numbers::fitting))]
fn sections_fit(
    symbols: &[u8],
    states: &[u8],
    internals: &[u8],
    calls: &[u8],
    returns: &[u8],
) -> bool
    ensures { result ≡ records_fit (sectioned 0 symbols.now states.now internals.now calls.now returns.now) }
{
    records_fit(symbols, states, 0, 3, internals)
        && records_fit(symbols, states, 1, 3, calls)
        && records_fit(symbols, states, 2, 4, returns)
}

// 8: the order of the three sections.
#[tactic(auto, using(crate::proofs::Numbers::ordered))]
fn sections_ascend(internals: &[u8], calls: &[u8], returns: &[u8]) -> bool
    ensures { result ≡ order_fits (sectioned 0 [] [] internals.now calls.now returns.now) }
{
    ascends(3, internals) && ascends(3, calls) && ascends(4, returns)
}

// 4 to 8, of five sections of a version: the first that applies is the refusal.
pub fn test_contents(
    limits: Limits,
    version: usize,
    symbols: &[u8],
    states: &[u8],
    internals: &[u8],
    calls: &[u8],
    returns: &[u8],
) -> Result<(), Refusal>
    ensures { result
        ≡ tested (first_failed (table_tests limits (sectioned version symbols.now states.now internals.now calls.now returns.now))) }
{
    if !counts_fit(limits, symbols, states, internals, calls, returns) {
        return Err(Refusal::Counts);
    }
    if !bytes_fit(version, symbols, states) {
        return Err(Refusal::Bytes);
    }
    if !any_initial(states) {
        return Err(Refusal::NoInitial);
    }
    if !sections_fit(symbols, states, internals, calls, returns) {
        return Err(Refusal::Records);
    }
    if !sections_ascend(internals, calls, returns) {
        return Err(Refusal::Order);
    }
    Ok(())
}

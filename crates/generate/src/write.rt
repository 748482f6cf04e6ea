// Writing the table described: its symbols and states, and the records by their keys.
ghost use Rattle.std.specs.Prelude.{◌≡◌, ◌+◌, ◌<◌, ◌≤◌, length};
ghost use Rattle.lists.specs.Lists.{over};
ghost use Rattle.table_spec.specs.File.{bytes_of};
ghost use Rattle.table_write.specs.Tables.{keyed_table, written_for};
ghost use Rattle.generate_spec.specs.Loads.{kind_of, symbol_bytes, state_byte, state_bytes};
ghost use Rattle.generate.specs.Counts.{Counts, FewKeys};

use refusals::Refusal;

// The byte of a symbol: "numbered in that order".
fn kind_of(internals: usize, calls: usize, symbol: usize) -> u8
    requires { internals + calls ≤ 64 }
    ensures { result ≡ kind_of internals calls symbol }
{
    if symbol < internals {
        return 0;
    }
    if symbol < internals + calls {
        return 1;
    }
    2
}

// The symbols' bytes to the front of a buffer.
fn put_symbols(internals: usize, calls: usize, symbols: usize, out: &mut [u8])
    requires { (internals + calls ≤ 64) × (symbols ≤ length out.old) }
    ensures { out.new ≡ over (symbol_bytes internals calls symbols) out.old }
{
    'symbols: for a in 0..symbols {
        out[a] = kind_of(internals, calls, a);
    }
}

// "State 0 is initial and the last state accepting."
fn state_byte(states: usize, state: usize) -> u8
    requires { state < states }
    ensures { result ≡ state_byte states state }
{
    if state + 1 == states {
        if state == 0 {
            return 3;
        }
        return 2;
    }
    if state == 0 {
        return 1;
    }
    0
}

// The states' bytes to the front of a buffer.
fn put_states(states: usize, out: &mut [u8])
    requires { states ≤ length out.old }
    ensures { out.new ≡ over (state_bytes states) out.old }
{
    'states: for q in 0..states {
        out[q] = state_byte(states, q);
    }
}

// "The file is of version 1."
const VERSION: usize = 1;

// The table whose internals, calls and returns are given by their keys: its length is known before anything is written.
pub(crate) fn write_keys(
    states: usize,
    internals: usize,
    calls: usize,
    symbols: usize,
    moves: &[u32],
    pushes: &[u32],
    pops: &[u32],
    out: &mut [u8],
) -> Result<usize, Refusal>
    requires { Counts states symbols × (internals + calls ≤ symbols) × FewKeys moves.now pushes.now pops.now }
    ensures { record { answer = result; out = out.new }
        ≡ written_for
        (bytes_of (keyed_table 1 (symbol_bytes internals calls symbols) (state_bytes states) moves.now pushes.now pops.now))
        out.old }
{
    let records = 3 * moves.len() + 3 * pushes.len() + 4 * pops.len();
    let length = symbols + states + records + 12;
    if out.len() < length {
        return Err(Refusal::OutputLength);
    }
    let mut symbol_bytes = [0u8; 64];
    put_symbols(internals, calls, symbols, &mut symbol_bytes);
    let mut state_bytes = [0u8; 40];
    put_states(states, &mut state_bytes);
    table_write::put_table(
        VERSION,
        &symbol_bytes[..symbols],
        &state_bytes[..states],
        moves,
        pushes,
        pops,
        out,
    );
    Ok(length)
}

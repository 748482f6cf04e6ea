// Writing a table, section by section: each writer is lent the remaining output.
#![tactic(auto)]

ghost use Rattle.std.specs.Prelude.{◌≡◌, ◌+◌, ◌*◌, ◌^◌, ◌<◌, ◌≤◌, length};
ghost use Rattle.lists.specs.Lists.{concat_map, over};
ghost use Rattle.table_spec.specs.File.{bytes16, bytes_of};
ghost use Rattle.table_write.specs.Keys.{record_of};
ghost use Rattle.table_write.specs.Tables.{keyed_table, trailer_from};

// Bytes to the front of the remaining output.
fn put_bytes(bytes: &[u8], out: &mut [u8])
    requires { length bytes.now ≤ length out.old }
    ensures { out.new ≡ over bytes.now out.old }
{
    out[..bytes.len()].copy_from_slice(bytes);
}

// A record by its key.
fn put_key(width: usize, key: u32, out: &mut [u8])
    requires { (width ≤ 4) × (width ≤ length out.old) }
    ensures { out.new ≡ over (record_of width key) out.old }
{
    let bytes = key.to_be_bytes();
    let from = 4 - width;
    put_bytes(&bytes[from..], out);
}

// The records of keys.
fn put_keys(width: usize, keys: &[u32], out: &mut [u8])
    requires { (width ≤ 4) × (length (concat_map (record_of width) keys.now) ≤ length out.old) }
    ensures { out.new ≡ over (concat_map (record_of width) keys.now) out.old }
{
    let mut at: usize = 0;
    'keys: for key in keys {
        put_key(width, *key, &mut out[at..]);
        at += width;
    }
}

// A 16-bit number, the lower byte first.
fn put_word(word: usize, out: &mut [u8])
    requires { 2 ≤ length out.old }
    ensures { out.new ≡ over (bytes16 word) out.old }
{
    let bytes = [(word % 256) as u8, (word / 256 % 256) as u8];
    put_bytes(&bytes, out);
}

// 16-bit numbers.
fn put_words(words: &[usize], out: &mut [u8])
    requires { length (concat_map bytes16 words.now) ≤ length out.old }
    ensures { out.new ≡ over (concat_map bytes16 words.now) out.old }
{
    let mut at: usize = 0;
    'words: for word in words {
        put_word(*word, &mut out[at..]);
        at += 2;
    }
}

// The trailer after so many symbols, states and records: "the distances back from its first byte to each section's start", then the version.
fn put_trailer(
    versioned: usize,
    symbols: usize,
    states: usize,
    internals: usize,
    calls: usize,
    returns: usize,
    out: &mut [u8],
)
    requires { (symbols + states + 3 * internals + 3 * calls + 4 * returns < 2 ^ 64) × (12 ≤ length out.old) }
    ensures { out.new ≡ over (trailer_from versioned symbols states internals calls returns) out.old }
{
    let from_returns = 4 * returns;
    let from_calls = 3 * calls + from_returns;
    let from_internals = 3 * internals + from_calls;
    let from_states = states + from_internals;
    let from_symbols = symbols + from_states;
    let words = [
        from_symbols,
        from_states,
        from_internals,
        from_calls,
        from_returns,
        versioned,
    ];
    put_words(&words, out);
}

// "Each section is written after the one before it, then the trailer."
pub fn put_table(
    version: usize,
    symbols: &[u8],
    states: &[u8],
    internals: &[u32],
    calls: &[u32],
    returns: &[u32],
    out: &mut [u8],
)
    requires { length (bytes_of (keyed_table version symbols.now states.now internals.now calls.now returns.now)) ≤ length out.old }
    ensures { out.new
        ≡ over
        (bytes_of (keyed_table version symbols.now states.now internals.now calls.now returns.now))
        out.old }
{
    put_bytes(symbols, out);
    let mut at = symbols.len();
    put_bytes(states, &mut out[at..]);
    at += states.len();
    put_keys(3, internals, &mut out[at..]);
    at += 3 * internals.len();
    put_keys(3, calls, &mut out[at..]);
    at += 3 * calls.len();
    put_keys(4, returns, &mut out[at..]);
    at += 4 * returns.len();
    put_trailer(
        version,
        symbols.len(),
        states.len(),
        internals.len(),
        calls.len(),
        returns.len(),
        &mut out[at..],
    );
}

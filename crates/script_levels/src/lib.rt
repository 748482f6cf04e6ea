// Levels of a script: what is reached on the empty stack and after each open call, symbol by symbol, by an index of each section.
#![tactic(auto)]

ghost use Rattle.std.specs.Prelude.{◌≡◌, [], ◌≤◌, ◌<◌, length};
ghost use Rattle.table_spec.specs.File.{records};
ghost use Rattle.table_view.specs.Sections.{sectioned};
ghost use Rattle.script_spec.specs.Script.{gain, moved, returned, ended};
ghost use Rattle.table_index.specs.Index.{Lent, Indexed};
ghost use Rattle.script_levels.specs.Levels.{all_gain, popped, Few};

use bits::{bit, has_bit};

// The targets of the moves found gain the tops of w.
fn gain_moves(found: &[u8], w: u64, words: &mut [u64; 40])
    requires { Few 3 found.now }
    ensures { words.new ≡ all_gain (λ r. w) 2 (records 3 found.now) words.old }
{
    'records: for fields in found.chunks_exact(3) {
        tops::add(words, usize::from(fields[2]), w);
    }
}

// The targets of the returns found gain what the stack state has below, where it is one of the states in `reached`.
fn gain_returns(found: &[u8], reached: u64, below: &[u64; 40], words: &mut [u64; 40])
    requires { Few 4 found.now }
    ensures { words.new ≡ all_gain (popped reached below.now) 3 (records 4 found.now) words.old }
{
    'records: for fields in found.chunks_exact(4) {
        let s = usize::from(fields[2]);
        if has_bit(reached, s) {
            tops::add(words, usize::from(fields[3]), below[s]);
        }
    }
}

// What a target of q has as tops, by an internal or by a call.
fn gain(call: bool, level: &[u64; 40], q: usize) -> u64
    requires { q < 40 }
    ensures { result ≡ gain call level.now q }
{
    let word = level[q];
    if !call {
        return word;
    }
    if word == 0 {
        return 0;
    }
    bit(q)
}

// The level after an internal or a call by symbol a: by the moves of each state that is reached.
pub fn moved(
    section: &[u8],
    starts: &[u16; 2561],
    n: usize,
    a: usize,
    call: bool,
    level: &[u64; 40],
) -> [u64; 40]
    requires { (n ≤ 40) × (a < 64) × Lent 3 n section.now × Indexed n (records 3 section.now) starts.now }
    ensures { result ≡ moved (records 3 section.now) a call level.now }
{
    let mut words = [0u64; 40];
    'states: for q in 0..n {
        let w = gain(call, level, q);
        if w != 0 {
            let at = q * 64 + a;
            let from = usize::from(starts[at]) * 3;
            let to = usize::from(starts[at + 1]) * 3;
            gain_moves(&section[from..to], w, &mut words);
        }
    }
    words
}

// The level after a return by symbol a: by the returns of each state that is reached.
pub fn returned(
    section: &[u8],
    starts: &[u16; 2561],
    n: usize,
    a: usize,
    level: &[u64; 40],
    below: &[u64; 40],
) -> [u64; 40]
    requires { (n ≤ 40) × (a < 64) × Lent 4 n section.now × Indexed n (records 4 section.now) starts.now }
    ensures { result ≡ returned (records 4 section.now) a level.now below.now }
{
    let mut words = [0u64; 40];
    'states: for q in 0..n {
        let reached = level[q];
        if reached != 0 {
            let at = q * 64 + a;
            let from = usize::from(starts[at]) * 4;
            let to = usize::from(starts[at + 1]) * 4;
            gain_returns(&section[from..to], reached, below, &mut words);
        }
    }
    words
}

// On the empty stack: an accepting state is reached.
pub fn ended(states: &[u8], level: &[u64; 40]) -> bool
    requires { length states.now ≤ 40 }
    ensures { result ≡ ended (sectioned 0 [] states.now [] [] []) (record { now = level.now; below = [] }) }
{
    'states: for (q, state) in states.iter().enumerate() {
        if *state / 2 % 2 == 1 {
            if has_bit(level[q], 40) {
                return true;
            }
        }
    }
    false
}

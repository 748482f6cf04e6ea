// The clauses of returns: group 5 of the list.
ghost use Rattle.std.specs.Prelude.{◌≡◌, ◌&&◌, [], ◌∷◌, ◌≤◌, ◌<◌, length, eqb};
ghost use Rattle.lists.specs.Lists.{concat_map, filter, upto};
ghost use Rattle.lists.specs.Bits.{has_bit, has};
ghost use Rattle.table_spec.specs.File.{records};
ghost use Rattle.clauses_spec.specs.Clauses.{top_states};
ghost use Rattle.clauses_emit.specs.Emit.{state, emit};
ghost use Rattle.table_index.specs.Index.{Lent, Indexed};
ghost use Rattle.clauses_records.specs.Returns.{Starting, Reached, return_of, live_record, return_clauses_by};

use bits::{has_bit, later_states, next_state};
use clauses_emit::{Tally, no_literals};
use clauses_targets::{matched, with_premise};
use table_index::{block, starts_of};

// A record (p, r, s, p').
#[derive(Clone, Copy)]
pub struct Return {
    pub from: u8,
    pub symbol: u8,
    pub under: u8,
    pub to: u8,
}

// q = p with u = s
fn same_place(x: Return, q: u8, u: u8) -> bool
    ensures { result ≡ (eqb q x.from && eqb u x.under) }
{
    q == x.from && u == x.under
}

// The clause of a return, a state q and a top u of q, by the returns of q over u.
fn return_clause(found: &[u8], x: Return, q: u8, u: u8, tally: Tally, list: &mut [u16]) -> Tally
    requires { Starting (q ∷ x.symbol ∷ u ∷ []) found.now }
    ensures { state result list.new ≡ emit (return_of (records 4 found.now) x q u) (state tally list.old) }
{
    if same_place(x, q, u) {
        return tally;
    }
    let premises = with_premise(with_premise(no_literals(), x.from, q), x.under, u);
    matched(found, 4, x.to, premises, tally, list)
}

// The first record from one on whose stack state is not below u.
fn reached(block: &[u8], from: usize, u: u8) -> usize
    requires { from ≤ length (records 4 block.now) }
    ensures { Reached (records 4 block.now) from u result }
{
    let count = block.len() / 4;
    'records: for i in from..count {
        if block[i * 4 + 2] >= u {
            return i;
        }
    }
    count
}

// "each state u in tops(q) ascending": the trailing zeros give the next top, and a walk along the block of q its returns.
fn return_tops(
    block: &[u8],
    x: Return,
    q: u8,
    word: u64,
    count: u8,
    tally: Tally,
    list: &mut [u16],
) -> Tally
    requires { Starting (q ∷ x.symbol ∷ []) block.now }
    ensures { state result list.new ≡ emit (concat_map (λ u. return_of (records 4 block.now) x q u) (filter (has_bit word) (upto count))) (state tally list.old) }
{
    let mut so_far = tally;
    let mut rest = word;
    let mut at: usize = 0;
    'tops: while rest != 0 {
        let top = next_state(rest);
        if top >= count as u32 {
            return so_far;
        }
        let u = top as u8;
        let from = reached(block, at, u);
        at = reached(block, from, u + 1);
        let start = from * 4;
        let end = at * 4;
        so_far = return_clause(&block[start..end], x, q, u, so_far, list);
        rest = later_states(rest);
    }
    so_far
}

// "each q ascending"
fn return_record(
    section: &[u8],
    starts: &[u16; 2561],
    tops: &[u64; 40],
    x: Return,
    count: u8,
    tally: Tally,
    list: &mut [u16],
) -> Tally
    requires { Lent 4 40 section.now × Indexed count (records 4 section.now) starts.now × (x.symbol < 64) × (count ≤ 40) }
    ensures { state result list.new
        ≡ emit (concat_map (λ q. concat_map (λ u. return_of (records 4 section.now) x q u) (top_states tops.now count q)) (upto count))
        (state tally list.old) }
{
    let mut at = tally;
    'states: for q in 0..count {
        let word = tops[usize::from(q)];
        let found = block(section, 4, starts, q, x.symbol);
        at = return_tops(found, x, q, word, count, at, list);
    }
    at
}

// "A return record is live when its stack state is in tops of its state".
fn is_live(tops: &[u64; 40], x: Return) -> bool
    requires { (x.from < 40) × (x.under < 64) }
    ensures { result ≡ has tops.now x.from x.under }
{
    has_bit(tops[usize::from(x.from)], usize::from(x.under))
}

// A live return has clauses, a dead one none.
fn live_record(
    section: &[u8],
    starts: &[u16; 2561],
    tops: &[u64; 40],
    x: Return,
    count: u8,
    tally: Tally,
    list: &mut [u16],
) -> Tally
    requires { Lent 4 40 section.now × Indexed count (records 4 section.now) starts.now × (x.from < 40) × (x.symbol < 64) × (x.under < 64) × (count ≤ 40) }
    ensures { state result list.new ≡ emit (live_record (records 4 section.now) tops.now count x) (state tally list.old) }
{
    if !is_live(tops, x) {
        return tally;
    }
    return_record(section, starts, tops, x, count, tally, list)
}

// 5. "For each live return (p, r, s, p') in order". No further once the list is too short.
pub fn live_returns(
    section: &[u8],
    tops: &[u64; 40],
    count: u8,
    tally: Tally,
    list: &mut [u16],
) -> Tally
    requires { Lent 4 count section.now × (count ≤ 40) }
    ensures { state result list.new ≡ emit (return_clauses_by tops.now (records 4 section.now) count) (state tally list.old) }
{
    let starts = starts_of(section, 4, usize::from(count));
    let mut so_far = tally;
    'records: for fields in section.chunks_exact(4) {
        if list.len() < so_far.words {
            return so_far;
        }
        let x = Return {
            from: fields[0],
            symbol: fields[1],
            under: fields[2],
            to: fields[3],
        };
        so_far = live_record(section, &starts, tops, x, count, so_far, list);
    }
    so_far
}

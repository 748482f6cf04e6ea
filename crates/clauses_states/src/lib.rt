// The clauses of the states alone: groups 1 and 2 of the list.
#![tactic(auto)]

ghost use Rattle.std.specs.Prelude.{◌≡◌, [], ◌∷◌, ◌<◌, ◌≤◌, length};
ghost use Rattle.table_spec.specs.File.{of_states};
ghost use Rattle.lists.specs.Lists.{concat_map};
ghost use Rattle.limits.specs.Limits.{state_most};
ghost use Rattle.pairs.specs.Pairs.{pairs, pair_of};
ghost use Rattle.pairs.specs.Entries.{PairTable};
ghost use Rattle.pairs.specs.Triangles.{triangle, past};
ghost use Rattle.clauses_spec.specs.Clauses.{look_clauses, transitivity};
ghost use Rattle.clauses_emit.specs.Emit.{Holds, state, emit};
ghost use Rattle.clauses_states.specs.Alone.{look_clause};

use clauses_emit::{Literals, Tally, joined, no_literals, parted, put, with_literal};
use pairs::{pair_of, pair_table, pairs_of};

// The clause of a variable: "false" where exactly one of its states is accepting, or their marks differ.
fn look_apart(states: &[u8], table: &[u16], v: u16, tally: Tally, list: &mut [u16]) -> Tally
    requires { (length states.now ≤ state_most) × PairTable table.now × (v < pairs (length states.now)) }
    ensures { state result list.new ≡ emit (look_clause (of_states states.now) (pair_of v).low (pair_of v).high) (state tally list.old) }
{
    let pair = pair_of(table, v);
    let low = states[usize::from(pair.low)];
    let high = states[usize::from(pair.high)];
    if low / 2 == high / 2 {
        return tally;
    }
    put(with_literal(no_literals(), 2 * v + 1), tally, list)
}

// 1. "By ascending variable".
pub fn labels_apart(states: &[u8], tally: Tally, list: &mut [u16]) -> Tally
    requires { length states.now ≤ state_most }
    ensures { state result list.new ≡ emit (look_clauses (of_states states.now)) (state tally list.old) }
{
    let table = pair_table();
    let end = pairs_of(states.len() as u8);
    let mut at = tally;
    'variables: for v in 0..end {
        at = look_apart(states, &table, v, at, list);
    }
    at
}

fn three(a: u16, b: u16, c: u16) -> Literals
    ensures { Holds result (a ∷ b ∷ c ∷ []) }
{
    Literals {
        words: [a, b, c],
        n: 3,
    }
}

// "pq and qs give ps; pq and ps give qs; ps and qs give pq"
fn close(p: u8, q: u8, s: u8, tally: Tally, list: &mut [u16]) -> Tally
    ensures { state result list.new ≡ emit (triangle p q s) (state tally list.old) }
{
    let pq = parted(p, q);
    let ps = parted(p, s);
    let qs = parted(q, s);
    let first = three(pq, qs, joined(p, s));
    let second = three(pq, ps, joined(q, s));
    let third = three(ps, qs, joined(p, q));
    put(third, put(second, put(first, tally, list), list), list)
}

// The states s past q.
fn close_over(p: u8, q: u8, count: u8, tally: Tally, list: &mut [u16]) -> Tally
    requires { q < count }
    ensures { state result list.new ≡ emit (concat_map (λ s. triangle p q s) (past count q)) (state tally list.old) }
{
    let mut at = tally;
    'states: for s in q + 1..count {
        at = close(p, q, s, at, list);
    }
    at
}

// The states q past p.
fn close_from(p: u8, count: u8, tally: Tally, list: &mut [u16]) -> Tally
    requires { p < count }
    ensures { state result list.new ≡ emit (concat_map (λ q. concat_map (λ s. triangle p q s) (past count q)) (past count p)) (state tally list.old) }
{
    let mut at = tally;
    'states: for q in p + 1..count {
        at = close_over(p, q, count, at, list);
    }
    at
}

// 2. "For p < q < s ascending by p, then q, then s".
pub fn transitive(states: &[u8], tally: Tally, list: &mut [u16]) -> Tally
    requires { length states.now ≤ 255 }
    ensures { state result list.new ≡ emit (transitivity (of_states states.now)) (state tally list.old) }
{
    let count = states.len() as u8;
    let mut at = tally;
    'states: for p in 0..count {
        at = close_from(p, count, at, list);
    }
    at
}

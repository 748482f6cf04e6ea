// The clause of premises and the targets of which one is to be joined to a target.
#![tactic(auto)]

ghost use Rattle.std.specs.Prelude.{◌≡◌, ◌∷◌, ◌++◌, ◌+◌, ◌<◌, ◌≤◌, length, get_or};
ghost use Rattle.lists.specs.Lists.{any, over};
ghost use Rattle.clauses_spec.specs.Clauses.{premise};
ghost use Rattle.clauses_emit.specs.Emit.{literals_of, with_all, Holds, matching_from, leaves, last_bytes, state, emit};
ghost use Rattle.clauses_targets.specs.Targets.{Counted, Premised, target_literals};

use clauses_emit::{
    Literals, Tally, contains, counted, joined, opposed, parted, store, with_literal, writes,
};

// "{p,q} false unless p = q"
pub fn with_premise(c: Literals, p: u8, q: u8) -> Literals
    requires { c.n < 3 }
    ensures { Holds result (with_all (literals_of c) (premise p q)) }
{
    if p == q {
        return c;
    }
    with_literal(c, parted(p, q))
}

// "Left out if some q' = p'", and where a target makes a variable both ways with a premise.
fn left_out(found: &[u8], width: usize, target: u8, premises: Literals) -> bool
    requires { (0 < width) × (premises.n ≤ 2) }
    ensures { result ≡ any (leaves (literals_of premises) target) (last_bytes width found.now) }
{
    let words = premises.words;
    let n = premises.n;
    'targets: for fields in found.chunks_exact(width) {
        let q = fields[width - 1];
        if q == target {
            return true;
        }
        let l = joined(target, q);
        let other = opposed(l);
        if contains(&words, n, other) {
            return true;
        }
    }
    false
}

// The target of record i of those found: its last byte.
fn target_at(found: &[u8], width: usize, count: usize, i: usize) -> u8
    requires { Counted width found.now count × (i < count) }
    ensures { result ≡ get_or (last_bytes width found.now) i 0 }
{
    found[i * width + width - 1]
}

// "then {p',q'} true for each", at the front of the remaining buffer.
fn store_targets(found: &[u8], width: usize, count: usize, target: u8, rest: &mut [u16])
    requires { Counted width found.now count × (count ≤ length rest.old) }
    ensures { rest.new ≡ over (target_literals width target found.now) rest.old }
{
    'targets: for i in 0..count {
        rest[i] = joined(target, target_at(found, width, count, i));
    }
}

// The clause's words at the front of the remaining buffer: the premises, then the targets.
fn store_clause(
    found: &[u8],
    width: usize,
    count: usize,
    target: u8,
    premises: Literals,
    rest: &mut [u16],
)
    requires { Counted width found.now count × (premises.n ≤ 2) × (premises.n + count < length rest.old) }
    ensures { rest.new ≡ over ((premises.n + count) ∷ (literals_of premises ++ target_literals width target found.now)) rest.old }
{
    let n = premises.n;
    store(premises, n + count, rest);
    let behind = n + 1;
    store_targets(found, width, count, target, &mut rest[behind..]);
}

// "then {p',q'} true for each": the q' are the last bytes of the records found. Whether the clause is left out is known before any of it is written.
pub fn matched(
    found: &[u8],
    width: usize,
    target: u8,
    premises: Literals,
    tally: Tally,
    list: &mut [u16],
) -> Tally
    requires { Premised width found.now premises }
    ensures { state result list.new ≡ emit (matching_from (literals_of premises) target (last_bytes width found.now)) (state tally list.old) }
{
    let count = found.len() / width;
    if left_out(found, width, target, premises) {
        return tally;
    }
    let n = premises.n + count;
    let room = list.len();
    if !writes(tally, n, room) {
        return counted(tally, n, room);
    }
    let at = tally.words;
    store_clause(found, width, count, target, premises, &mut list[at..]);
    counted(tally, n, room)
}

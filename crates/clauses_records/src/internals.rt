// The clauses of internals and calls: groups 3 and 4 of the list.
ghost use Rattle.std.specs.Prelude.{◌≡◌, ◌<◌, ◌≤◌};
ghost use Rattle.lists.specs.Lists.{concat_map, upto};
ghost use Rattle.table_spec.specs.File.{records};
ghost use Rattle.clauses_spec.specs.Clauses.{move_clause, move_clauses};
ghost use Rattle.clauses_emit.specs.Emit.{state, emit};
ghost use Rattle.table_index.specs.Index.{Lent, Indexed, Placed};

use clauses_emit::{Tally, no_literals};
use clauses_targets::{matched, with_premise};
use table_index::{block, starts_of};

// The clause of a record (p, a, p') and a state q.
fn move_clause(
    section: &[u8],
    starts: &[u16; 2561],
    p: u8,
    a: u8,
    target: u8,
    q: u8,
    tally: Tally,
    list: &mut [u16],
) -> Tally
    requires { Lent 3 40 section.now × Placed (records 3 section.now) starts.now q a × (q < 40) × (a < 64) }
    ensures { state result list.new ≡ emit (move_clause (records 3 section.now) p a target q) (state tally list.old) }
{
    if q == p {
        return tally;
    }
    let found = block(section, 3, starts, q, a);
    let premises = with_premise(no_literals(), p, q);
    matched(found, 3, target, premises, tally, list)
}

// "each q other than p ascending"
fn move_record(
    section: &[u8],
    starts: &[u16; 2561],
    p: u8,
    a: u8,
    target: u8,
    count: u8,
    tally: Tally,
    list: &mut [u16],
) -> Tally
    requires { Lent 3 40 section.now × Indexed count (records 3 section.now) starts.now × (count ≤ 40) × (a < 64) }
    ensures { state result list.new ≡ emit (concat_map (λ q. move_clause (records 3 section.now) p a target q) (upto count)) (state tally list.old) }
{
    let mut at = tally;
    'states: for q in 0..count {
        at = move_clause(section, starts, p, a, target, q, at, list);
    }
    at
}

// 3. "For each internal record (p, a, p') in file order"; 4. "The same for calls." No further once the list is too short.
pub fn moves(section: &[u8], count: u8, tally: Tally, list: &mut [u16]) -> Tally
    requires { Lent 3 count section.now × (count ≤ 40) }
    ensures { state result list.new ≡ emit (move_clauses (records 3 section.now) count) (state tally list.old) }
{
    let starts = starts_of(section, 3, usize::from(count));
    let mut so_far = tally;
    'records: for fields in section.chunks_exact(3) {
        if list.len() < so_far.words {
            return so_far;
        }
        so_far = move_record(
            section, &starts, fields[0], fields[1], fields[2], count, so_far, list,
        );
    }
    so_far
}

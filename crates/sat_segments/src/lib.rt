// Unit propagation over a long list by segments: where variables were set, only the segments in which one of them stands are scanned.
#![tactic(auto)]

ghost use Rattle.std.specs.Prelude.{◌≡◌, true, ◌%◌, ◌/◌, ◌^◌, ◌≤◌, ◌<◌, length};
ghost use Rattle.std.proofs.Math.Seq.{slice};
ghost use Rattle.lists.specs.Bits.{has};
ghost use Rattle.cnf.specs.Clauses.{clauses_in, whole};
ghost use Rattle.cnf.specs.Closing.{Formed};
ghost use Rattle.sat_literal.specs.Literals.{Over};
ghost use Rattle.pairs.specs.Entries.{PairTable};
ghost use Rattle.sat_trail.specs.Conclusions.{with_triangles};
ghost use Rattle.sat_trail.specs.Rows.{RowsOf};
ghost use Rattle.sat_trail.specs.Conflicts.{is_broken, set_count};
ghost use Rattle.sat_trail.specs.Trail.{Ready, Queue, OnePass, Settles};
ghost use Rattle.sat_segments.specs.Segments.{limit_of, Cut, Noted, Marked, word_over, Gained, SettledOrDue, Lookup};

use equality_propagate::drain;
use sat_scan::scan_clauses;
use sat_trail::{Conflict, StateRows};

// Where segment k, which begins at `at`, takes no further clause: after a 1,024th of the words. The last one takes what is left.
fn limit_of(words: usize, at: usize, k: usize) -> usize
    requires { at ≤ words }
    ensures { result ≡ limit_of words at k }
{
    let size = words / 1024 + 1;
    if k == 1023 {
        return words;
    }
    if words - at < size {
        return words;
    }
    at + size
}

// Segment k is one of those of each of the literals' variables.
fn mark_clause(literals: &[u16], k: usize, masks: &mut [u64; 12480])
    requires { Over literals.now 780 × (k < 1024) × (length masks.old ≡ 12480) }
    ensures { Noted literals.now k masks.old masks.new }
{
    let own = bits::bit(k % 64);
    'literals: for literal in literals {
        let at = usize::from(*literal / 2) * 16 + k / 64;
        masks[at] |= own;
    }
}

// Cuts the list into segments, and puts down in which of them each variable stands.
pub fn mark(list: &[u16], starts: &mut [usize; 1025], masks: &mut [u64; 12480])
    requires list_value { (whole list.now ≡ true) × Formed (clauses_in list.now) 780 }
    requires starts_len { (length starts.old ≡ 1025) × (length masks.old ≡ 12480) }
    ensures { Marked list.now starts.new masks.new }
{
    starts[0] = 0;
    let mut at: usize = 0;
    'segments: for k in 0..1024 {
        let limit = limit_of(list.len(), at, k);
        'clauses: while at < limit {
            let first = at + 1;
            let end = first + usize::from(list[at]);
            mark_clause(&list[first..end], k, masks);
            at = end;
        }
        starts[k + 1] = at;
    }
}

// Whether segment k is one of the set.
fn is_due(set: &[u64; 16], k: usize) -> bool
    requires { k < 1024 }
    ensures { result ≡ has set.now (k / 64) (k % 64) }
{
    bits::has_bit(set[k / 64], k % 64)
}

// Word j of the segments in which a variable of the trail's part stands.
fn word_over(masks: &[u64], trail: &[u16], from: usize, to: usize, j: usize) -> u64
    requires { Lookup masks.now trail.now from to × (j < 16) }
    ensures { result ≡ word_over masks.now j (slice from to trail.now) }
{
    let mut word: u64 = 0;
    'variables: for i in (from..to).rev() {
        let at = usize::from(trail[i]) * 16 + j;
        word = masks[at] | word;
    }
    word
}

// No segments.
fn no_segments() -> [u64; 16]
    ensures { length result ≡ 16 }
{
    [0u64; 16]
}

// The set gains the segments in which a variable of the trail's part stands.
fn add_segments(masks: &[u64], trail: &[u16], from: usize, to: usize, set: &mut [u64; 16])
    requires { Lookup masks.now trail.now from to × (length set.old ≡ 16) }
    ensures { Gained masks.now (slice from to trail.now) set.old set.new }
{
    'words: for j in 0..16 {
        set[j] |= word_over(masks, trail, from, to, j);
    }
}

// One pass over the segments of the set, where every clause elsewhere is settled: what is forced is set as it is met, up to a clause that is broken. The set gains
// the segments of what is set.
fn pass_segments(
    list: &[u16],
    n: u8,
    table: &[u16],
    starts: &[usize],
    masks: &[u64],
    set: &mut [u64; 16],
    values: &mut [u8],
    trail: &mut [u16],
    rows: &mut StateRows,
    start: usize,
) -> Result<usize, Conflict>
    requires cut { Cut list.now starts.now × SettledOrDue list.now starts.now set.old values.old }
    requires masks_len { (length masks.now ≡ 12480) × (length set.old ≡ 16) × (length values.old ≤ 780) }
    requires ready { Ready (clauses_in list.now) values.old trail.old start }
    requires pair_table { PairTable table.now × RowsOf n values.old rows.old }
    ensures { OnePass (clauses_in list.now) values.old trail.old start values.new trail.new (is_broken result) (set_count result)
        × RowsOf n values.new rows.new }
{
    let mut count = start;
    'scan: for k in 0..1024 {
        if !is_due(set, k) {
            continue 'scan;
        }
        let first = starts[k];
        let end = starts[k + 1];
        let mut none = [0u16; 0];
        let s = scan_clauses(
            &list[first..end],
            n,
            table,
            values,
            trail,
            rows,
            count,
            &mut none,
        )?;
        add_segments(masks, trail, count, s.count, set);
        count = s.count;
    }
    Ok(count)
}

// Closes the values, where clauses wait for the trail's variables from `from` on: draws the conclusions, then passes over the segments of the variables that
// were set since the last pass began; and again, until a pass sets nothing or a clause is broken.
pub fn propagate_segments(
    list: &[u16],
    n: u8,
    table: &[u16],
    starts: &[usize],
    masks: &[u64],
    values: &mut [u8],
    trail: &mut [u16],
    rows: &mut StateRows,
    from: usize,
    start: usize,
) -> Result<usize, Conflict>
    requires marked { Marked list.now starts.now masks.now × (length values.old ≤ 780) }
    requires ready { Ready (with_triangles list.now n) values.old trail.old start × Queue (with_triangles list.now n) values.old trail.old from start }
    requires pair_table { PairTable table.now × RowsOf n values.old rows.old }
    ensures { Settles (with_triangles list.now n) values.old trail.old start values.new trail.new (is_broken result) (set_count result)
        × RowsOf n values.new rows.new }
{
    let mut at = from;
    let mut count = start;
    'passes: loop {
        let mid = drain(n, table, values, trail, rows, at, count)?;
        let mut set = no_segments();
        add_segments(masks, trail, at, mid, &mut set);
        at = mid;
        count = pass_segments(
            list, n, table, starts, masks, &mut set, values, trail, rows, at,
        )?;
        if count == at {
            return Ok(count);
        }
    }
}

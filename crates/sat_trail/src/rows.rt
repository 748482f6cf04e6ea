// The states that are joined to a state, itself among them, and those apart from it, a word each. A variable is set in the values, and its pair in
// the words; with no states there are no pairs, and the words stay as they are.
ghost use Rattle.std.specs.Prelude.{◌≡◌, ◌-◌, ◌/◌, ◌%◌, ◌^◌, ◌<◌, length, get_or};
ghost use Rattle.pairs.specs.Entries.{PairTable};
ghost use Rattle.sat_trail.specs.Rows.{Own, without, gain, marked, lose, unmarked, Marked, Put, Settable, Assigned, Forced};

use super::wanted;
use bits::bit;
use pairs::pair_of;

// For each state the word of the states joined to it, itself among them, and that of those apart from it.
#[derive(Clone, Copy)]
pub struct StateRows {
    pub joined: [u64; 40],
    pub apart: [u64; 40],
}

// What the first word has and the second has not.
fn without(a: u64, b: u64) -> u64
    ensures { result ≡ without a b }
{
    a & (a ^ b)
}

// The states that the word of p in the first words has, and that of q in the second has not.
pub fn lacking(a: &[u64; 40], p: u8, b: &[u64; 40], q: u8) -> u64
    requires { (p < 40) × (q < 40) }
    ensures { result ≡ without (get_or a.now p 0) (get_or b.now q 0) }
{
    without(a[usize::from(p)], b[usize::from(q)])
}

// Each state's word has that state alone: nothing is joined yet.
pub fn own_rows() -> [u64; 40]
    ensures { Own result }
{
    let mut words = [0u64; 40];
    'states: for p in 0..40 {
        words[p] = bit(p);
    }
    words
}

// State q joins the word of p.
fn gain(words: &mut [u64; 40], p: u8, q: u8)
    requires { (p < 40) × (q < 40) }
    ensures { words.new ≡ gain words.old p q }
{
    let i = usize::from(p);
    words[i] |= bit(usize::from(q));
}

// And p the word of q.
fn mark(words: &mut [u64; 40], p: u8, q: u8)
    requires { (p < 40) × (q < 40) }
    ensures { words.new ≡ marked words.old p q }
{
    gain(words, p, q);
    gain(words, q, p);
}

// State q leaves the word of p.
fn lose(words: &mut [u64; 40], p: u8, q: u8)
    requires { (p < 40) × (q < 40) }
    ensures { words.new ≡ lose words.old p q }
{
    let i = usize::from(p);
    words[i] = without(words[i], bit(usize::from(q)));
}

// And p the word of q.
pub fn unmark(words: &mut [u64; 40], p: u8, q: u8)
    requires { (p < 40) × (q < 40) }
    ensures { words.new ≡ unmarked words.old p q }
{
    lose(words, p, q);
    lose(words, q, p);
}

// Marks a pair by its value: among the joined, or among the apart.
fn mark_pair(rows: &mut StateRows, k: u8, p: u8, q: u8)
    requires { (p < 40) × (q < 40) }
    ensures { Marked rows.old.joined rows.old.apart k p q rows.new.joined rows.new.apart }
{
    if k == 1 {
        mark(&mut rows.joined, p, q);
        return;
    }
    mark(&mut rows.apart, p, q);
}

// Sets the variable x, which is the pair of p and q, and puts it after the first `count` of the trail. Answers how many the trail has then.
pub fn put(
    x: u16,
    p: u8,
    q: u8,
    k: u8,
    values: &mut [u8],
    trail: &mut [u16],
    rows: &mut StateRows,
    count: usize,
) -> usize
    requires { (p < 40) × (q < 40) × (x < length values.old) × (count < length trail.old) }
    ensures { Put values.old trail.old rows.old.joined rows.old.apart count x p q k values.new trail.new
        rows.new.joined rows.new.apart result }
{
    values[usize::from(x)] = k;
    trail[count] = x;
    mark_pair(rows, k, p, q);
    count + 1
}

// Gives an unset variable a value.
pub fn assign(n: u8, table: &[u16], x: u16, k: u8, values: &mut [u8], rows: &mut StateRows)
    requires { PairTable table.now × Settable n values.old rows.old.joined rows.old.apart x k }
    ensures { Assigned n values.old x k values.new rows.new.joined rows.new.apart }
{
    values[usize::from(x)] = k;
    if n == 0 {
        return;
    }
    let pair = pair_of(table, x);
    mark_pair(rows, k, pair.low, pair.high);
}

// Makes a literal true whose variable is unset, and puts the variable after the first `count` of the trail. Answers how many the trail has then.
pub fn force(
    n: u8,
    table: &[u16],
    l: u16,
    values: &mut [u8],
    trail: &mut [u16],
    rows: &mut StateRows,
    count: usize,
) -> usize
    requires pair_table { PairTable table.now }
    requires settable { Settable n values.old rows.old.joined rows.old.apart (l / 2) (1 - l % 2) × (count < length trail.old) }
    ensures { Forced n values.old trail.old count l values.new trail.new rows.new.joined rows.new.apart result }
{
    let x = l / 2;
    assign(n, table, x, wanted(l), values, rows);
    trail[count] = x;
    count + 1
}

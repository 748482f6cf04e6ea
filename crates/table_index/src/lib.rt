// An index of a section: where the records of each state and symbol begin, and the block that they are.
#![tactic(auto)]

ghost use Rattle.std.specs.Prelude.{◌≡◌, [], ◌∷◌, ◌≤◌, ◌<◌, length};
ghost use Rattle.lists.specs.Lists.{filter};
ghost use Rattle.table_spec.specs.File.{records};
ghost use Rattle.table_find.specs.Spans.{starts_with};
ghost use Rattle.table_index.specs.Index.{Lent, Indexed, Placed, Filled};

// Every entry from one place up to another is k.
fn fill(starts: &mut [u16; 2561], from: usize, to: usize, k: u16)
    requires { (from ≤ to) × (to ≤ length starts.old) }
    ensures { Filled from to k starts.old starts.new }
{
    starts[from..to].fill(k);
}

// Where the records of each of n states and each symbol begin, in one pass.
#[tactic(auto, using(crate::proofs::Index::at_record))]
pub fn starts_of(section: &[u8], width: usize, n: usize) -> [u16; 2561]
    requires { (3 ≤ width) × (n ≤ 40) × Lent width n section.now }
    ensures { Indexed n (records width section.now) result }
{
    let mut starts = [0u16; 2561];
    let count = section.len() / width;
    let mut x: usize = 0;
    'records: for k in 0..count {
        let at = k * width;
        let place = usize::from(section[at]) * 64 + usize::from(section[at + 1]);
        fill(&mut starts, x, place + 1, k as u16);
        x = place + 1;
    }
    fill(&mut starts, x, n * 64 + 1, count as u16);
    starts
}

// The records of a state and a symbol: the part of the section from where they begin to where the next ones do.
pub fn block<'a>(section: &'a [u8], width: usize, starts: &[u16; 2561], q: u8, a: u8) -> &'a [u8]
    requires { (3 ≤ width) × Lent width 40 section.now × Placed (records width section.now) starts.now q a × (q < 40) × (a < 64) }
    ensures { records width result.now ≡ filter (starts_with (q ∷ a ∷ [])) (records width section.now) }
{
    let x = usize::from(q) * 64 + usize::from(a);
    let from = usize::from(starts[x]);
    let to = usize::from(starts[x + 1]);
    let at = from * width;
    let end = to * width;
    &section[at..end]
}

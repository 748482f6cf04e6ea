// The map of an assignment: joined states in one class, the classes numbered by first member.
#![tactic(auto)]

ghost use Rattle.std.specs.Prelude.{◌≡◌, ◌≤◌, length};
ghost use Rattle.pairs.specs.Pairs.{pairs};
ghost use Rattle.reduce_map.specs.Lowest.{LowestJoined, MapOf};

// A class for each of the first states, and how many classes there are.
#[derive(Clone, Copy, Debug, PartialEq, Eq)]
pub struct Classes {
    pub map: [u8; 40],
    pub count: u8,
}

// Each state is joined to itself.
const ITSELF: [u8; 40] = [
    0, 1, 2, 3, 4, 5, 6, 7, 8, 9, 10, 11, 12, 13, 14, 15, 16, 17, 18, 19, 20, 21, 22, 23, 24, 25,
    26, 27, 28, 29, 30, 31, 32, 33, 34, 35, 36, 37, 38, 39,
];

// For each state the lowest state that is joined to it, or itself: a true variable names a pair.
fn lowest_joined(values: &[u8], n: u8) -> [u8; 40]
    requires { (n ≤ 40) × (pairs n ≤ length values.now) }
    ensures { LowestJoined values.now (pairs n) result }
{
    let mut low = ITSELF;
    let table = pairs::pair_table();
    let count = pairs::pairs_of(n);
    'variables: for x in 0..count {
        if values[usize::from(x)] != 1 {
            continue 'variables;
        }
        let pair = pairs::pair_of(&table, x);
        let q = usize::from(pair.high);
        if low[q] != pair.high {
            continue 'variables;
        }
        low[q] = pair.low;
    }
    low
}

// Numbers the classes by first member, from 0.
pub fn map_of(values: &[u8], n: u8) -> Classes
    requires { (n ≤ 40) × (pairs n ≤ length values.now) }
    ensures { MapOf values.now n result }
{
    let low = lowest_joined(values, n);
    let mut map = [0u8; 40];
    let mut next: u8 = 0;
    'states: for q in 0..n {
        let at = usize::from(q);
        let p = low[at];
        if p != q {
            map[at] = map[usize::from(p)];
            continue 'states;
        }
        map[at] = next;
        next += 1;
    }
    Classes { map, count: next }
}

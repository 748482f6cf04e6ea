// A map's classes: a state's class, their numbering, their count.
#![tactic(auto)]

ghost use Rattle.std.specs.Prelude.{◌≡◌};
ghost use Rattle.table_spec.specs.Maps.{class_of, classes, numbered};

// A state's class, 0 past the map's end.
pub fn class_of(map: &[u8], q: usize) -> u8
    ensures { result ≡ class_of map.now q }
{
    map.get(q).copied().unwrap_or(0)
}

// The class of a state that a record names.
pub fn class_at(map: &[u8], state: u8) -> u8
    ensures { result ≡ class_of map.now state }
{
    class_of(map, usize::from(state))
}

// "each at most one above the largest before it, the first 0"
pub fn numbered(map: &[u8]) -> bool
    ensures { result ≡ numbered map.now }
{
    let mut next: usize = 0;
    'states: for class in map {
        let class = usize::from(*class);
        if next < class {
            return false;
        }
        next = next.max(class + 1);
    }
    true
}

// The class count: one past the largest class number.
pub fn class_count(map: &[u8]) -> usize
    ensures { result ≡ classes map.now }
{
    let mut n: usize = 0;
    'states: for class in map {
        n = n.max(usize::from(*class) + 1);
    }
    n
}

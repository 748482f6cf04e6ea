// The literals of one clause that are collected before it is written.
ghost use Rattle.std.specs.Prelude.{◌≡◌, [], ◌<◌, ◌≤◌, length, take};
ghost use Rattle.lists.specs.Lists.{mem};
ghost use Rattle.pairs.specs.Triangles.{together, apart};
ghost use Rattle.clauses_spec.specs.Clauses.{opposite};
ghost use Rattle.clauses_emit.specs.Emit.{literals_of, with_literal, Holds};

use pairs::variable_of;

// The first n words: three are a clause of groups 1 and 2, two the premises of one with targets.
#[derive(Clone, Copy)]
pub struct Literals {
    pub words: [u16; 3],
    pub n: usize,
}

// "{p,q} true", for two different states.
pub fn joined(p: u8, q: u8) -> u16
    ensures { result ≡ together p q }
{
    2 * variable_of(p, q)
}

// "{p,q} false", for two different states.
pub fn parted(p: u8, q: u8) -> u16
    ensures { result ≡ apart p q }
{
    2 * variable_of(p, q) + 1
}

// The same variable the other way.
pub fn opposed(l: u16) -> u16
    ensures { result ≡ opposite l }
{
    if l % 2 == 0 { l + 1 } else { l - 1 }
}

pub fn no_literals() -> Literals
    ensures { Holds result [] }
{
    Literals {
        words: [0u16; 3],
        n: 0,
    }
}

// Whether a literal is among the first n words.
#[tactic(auto, unfolding(lists::specs::Lists::mem))]
pub fn contains(words: &[u16; 3], n: usize, l: u16) -> bool
    requires { (n ≤ 3) × (length words.now ≡ 3) }
    ensures { result ≡ mem l (take n words.now) }
{
    words[..n].iter().any(|word| l == *word)
}

// "A repeated literal is written once, at its first place": one literal more after the first n words, and how many there are then.
pub fn add_literal(words: &mut [u16; 3], n: usize, l: u16) -> usize
    requires { (n < 3) × (length words.old ≡ 3) }
    ensures { Holds (record { words = words.exit.now; n = result }) (with_literal (take n words.entry.now) l) × (length words.exit.now ≡ 3) }
{
    if contains(words, n, l) {
        return n;
    }
    words[n] = l;
    n + 1
}

// The same of a clause.
pub fn with_literal(c: Literals, l: u16) -> Literals
    requires { c.n < 3 }
    ensures { Holds result (with_literal (literals_of c) l) }
{
    let mut words = c.words;
    let n = add_literal(&mut words, c.n, l);
    Literals { words, n }
}

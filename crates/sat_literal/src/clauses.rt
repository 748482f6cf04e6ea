// The clauses of a list, one after the other, each as its literals.
ghost use Rattle.std.specs.Prelude.{◌≡◌, true, length};
ghost use Rattle.std.specs.Iterator.{at_most};
ghost use Rattle.cnf.specs.Clauses.{whole};
ghost use Rattle.sat_literal.specs.Walk.{clauses_rest, clauses_steps};

// The clauses that are still to come.
#[derive(Drop)]
pub struct Clauses<'a> {
    rest: &'a [u16],
}

// All clauses of a list.
pub fn clauses_of(list: &[u16]) -> Clauses
    ensures { clauses_rest result ≡ list.now }
{
    Clauses { rest: list }
}

impl<'a> Iterator for Clauses<'a> {
    type Item = &'a [u16];

    ghost can_next = { λ s. whole (clauses_rest s) ≡ true };

    ghost next_gives = { clauses_steps };

    ghost remaining = { λ s. at_most (length (clauses_rest s)) };

    fn next(&mut self) -> Option<&'a [u16]> {
        let rest = self.rest;
        if rest.is_empty() {
            return None;
        }
        let end = 1 + usize::from(rest[0]);
        self.rest = &rest[end..];
        Some(&rest[1..end])
    }
}

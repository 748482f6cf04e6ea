// What is counted of a clause list.
ghost use Rattle.std.specs.Prelude.{◌≤◌};

// What is counted so far, and whether it is written too.
#[derive(Clone, Copy)]
pub struct Tally {
    pub write: bool,
    pub clauses: usize,
    pub words: usize,
    // there are no more clauses than words
    ghost ordered: { clauses ≤ words },
}

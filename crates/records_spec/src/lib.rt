// Where the records of a table went under a map: definitions, laws, and the answer's form. No code.
#![tactic(auto)]

// How many records there are, and how many of them are kept, folded and dead.
#[derive(Clone, Copy, Debug, PartialEq, Eq)]
pub struct Counts {
    pub all: usize,
    pub kept: usize,
    pub folded: usize,
    pub dead: usize,
}

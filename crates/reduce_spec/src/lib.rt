// The reduction of a table: definitions, laws, and the answer's form. No code.
#![tactic(auto)]

// What is told of a reduction: classes, guesses, words of the clause list, the quotient's length, joined pairs, their ceiling, and whether the
// budget was spent.
#[derive(Clone, Copy, Debug, PartialEq, Eq)]
pub struct Reduction {
    pub classes: usize,
    pub guesses: u64,
    pub words: usize,
    pub length: usize,
    pub joined: usize,
    pub ceiling: usize,
    pub spent: bool,
}

// The clauses of a table and the map of an assignment: definitions, laws, and the answer's form. No code.
#![tactic(auto)]

// The list that was written: how many clauses it has, and how many words.
#[derive(Clone, Copy, Debug, PartialEq, Eq)]
pub struct Listed {
    pub clauses: usize,
    pub words: usize,
}

// The reachable stack tops of a table: definitions, laws, and the answer's form. No code.
#![tactic(auto)]

// What tops answers: a word for each possible state, and the number of tops found.
#[derive(Clone, Copy, Debug, PartialEq, Eq)]
pub struct TopWords {
    pub words: [u64; 40],
    pub found: u32,
}

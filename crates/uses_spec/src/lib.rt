// Use counts by class: definitions, laws, and the answer's form. No code.
#![tactic(auto)]

// What counting answers: a sum for each possible state by its number as a class, and the total.
#[derive(Clone, Copy, Debug, PartialEq, Eq)]
pub struct Counted {
    pub sums: [u64; 40],
    pub total: u64,
}

// The table file: definitions, laws, and what reading answers. No code.
#![tactic(auto)]

// "Reading answers the five section starts."
#[derive(Clone, Copy, Debug, PartialEq, Eq)]
pub struct Starts {
    pub symbols: usize,
    pub states: usize,
    pub internals: usize,
    pub calls: usize,
    pub returns: usize,
}

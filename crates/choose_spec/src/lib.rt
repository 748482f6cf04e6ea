// Which of two maps is handed back: definitions, laws, and the answer's form. No code.
#![tactic(auto)]

// Which of two maps is handed back.
#[derive(Clone, Copy, Debug, PartialEq, Eq)]
pub enum Which {
    First,
    Second,
}

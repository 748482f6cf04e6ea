// The clauses of a table, one by one: the literals of a clause collected, the clause counted and written.
#![tactic(auto)]

mod emit;
mod literals;
mod tally;

pub use emit::{counted, put, store, writes};
pub use literals::{
    Literals, add_literal, contains, joined, no_literals, opposed, parted, with_literal,
};
pub use tally::Tally;

// The tops of pairs of states as rows of bits, and one round over the records of the first table.
#![tactic(auto)]

mod pairs;
mod rows;

pub use pairs::{Kind, by_moves, by_returns};
pub use rows::{any, held, join, put};

// The records of two tables combined, collected as keys in the order of the file: how many there are, or nothing where there is no room for all of them.
#![tactic(auto)]

mod pairs;
mod push;
mod shift;

pub use pairs::product;
pub use shift::sum;

// The comparison of two tables that were read: 38, the tops of their pairs, and whether a pair accepts where it must not.
#![tactic(auto)]

mod choice;
mod marks;
mod nexts;
mod settle;

pub use choice::no_choice;
pub use settle::fits;

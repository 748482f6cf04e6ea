// The clauses of the records: groups 3 to 5 of the list.
#![tactic(auto)]

mod internals;
mod returns;

pub use internals::moves;
pub use returns::live_returns;

// Variables that are set, and unset again along the trail: their values, and the words of joined and apart states.
#![tactic(auto)]

ghost use Rattle.std.specs.Prelude.{◌≡◌, ◌-◌, ◌%◌};

mod retract;
mod rows;

pub use retract::{undo, undo_to};
pub use rows::{StateRows, assign, force, lacking, own_rows, put, unmark};

// A clause is in conflict. So many variables are set.
#[derive(Clone, Copy, Debug, PartialEq, Eq)]
pub struct Conflict {
    pub count: usize,
}

// The value of its variable that makes a literal true.
pub fn wanted(l: u16) -> u8
    ensures { result ≡ 1 - l % 2 }
{
    (1 - l % 2) as u8
}

// How the search ends, and what is due at a turn where the clauses are at rest.
#![tactic(auto)]

ghost use Rattle.std.specs.Prelude.{◌≡◌, ◌==◌, ◌≤◌, length, position};
ghost use Rattle.sat_decide.specs.Turns.{DueAt};

// How the search ends, with the guesses made. The values left are those found, or where the budget is spent the trial that is held.
#[derive(Clone, Copy, Debug, PartialEq, Eq)]
pub enum Ending {
    Found(u64),
    Absent(u64),
    Spent(u64),
}

// What is due where the clauses are at rest: (c) nothing is unset, (d) the guesses made equal the budget, (e) the lowest unset variable is guessed.
#[derive(Clone, Copy, Debug, PartialEq, Eq)]
pub enum Due {
    Solved,
    Spent,
    Guess(usize),
}

// The place of the first unset value.
fn next_unset(values: &[u8]) -> Option<usize>
    ensures { result ≡ position (λ y. y == 2) values.now }
{
    values.iter().position(|y| *y == 2)
}

// What is due, where every variable below `low` is set.
pub fn due_at(values: &[u8], low: usize, made: u64, budget: u64) -> Due
    requires { low ≤ length values.now }
    ensures { DueAt values.now low made budget result }
{
    let Some(further) = next_unset(&values[low..]) else {
        return Due::Solved;
    };
    if made == budget {
        return Due::Spent;
    }
    Due::Guess(low + further)
}

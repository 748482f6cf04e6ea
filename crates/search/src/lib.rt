// The search over clause words.
#![tactic(auto)]

ghost use Rattle.std.specs.Prelude.{◌≡◌, true, ◌≤◌};
ghost use Rattle.limits.specs.Limits.{standard, limits_fit};
ghost use Rattle.pairs.specs.Pairs.{pairs};
ghost use Rattle.search_spec.specs.Answers.{Searched, search_at, search_of, SearchSays};
ghost use Rattle.search_spec.specs.Demands.{SearchSound};

use limits::{Limits, limits_fit};
use refusals::Refusal;
use sat_decide::Ending;
use sat_solve::{none_set, solve};

mod fits;

use fits::list_fits;

// Searches over at most so many variables.
fn search_at(
    most: usize,
    list: &[u16],
    variables: usize,
    budget: u64,
    answer: &mut [u8],
) -> Result<u64, Refusal>
    requires { most ≤ 780 }
    ensures answers { ◌≡◌ {A = Searched} (record { solution = result; answer = answer.new }) (search_at most list.now variables budget answer.old) }
    ensures sound { SearchSound list.now variables result answer.new }
{
    if most < variables {
        return Err(Refusal::ListForm);
    }
    if !list_fits(list, variables) {
        return Err(Refusal::ListForm);
    }
    if answer.len() < variables {
        return Err(Refusal::AnswerLength);
    }
    let mut values = none_set();
    let end = solve(list, 0, &mut values[..variables], budget);
    let ending = end.ending;
    match ending {
        Ending::Found(k) => {
            answer[..variables].copy_from_slice(&values[..variables]);
            Ok(k)
        }
        Ending::Absent(_) => Err(Refusal::NoneExists),
        Ending::Spent(_) => Err(Refusal::Spent),
    }
}

// How many variables a table has at most at the limits.
fn most_variables(limits: Limits) -> usize
    requires { limits_fit limits ≡ true }
    ensures { result ≡ pairs limits.states }
{
    limits.states * (limits.states - 1) / 2
}

// Searches for an assignment of the variables that satisfies the list's clauses, with at most `budget` guesses. There are no more variables than
// a table has at the limits.
pub fn search_within(
    limits: Limits,
    list: &[u16],
    variables: usize,
    budget: u64,
    answer: &mut [u8],
) -> Result<u64, Refusal>
    ensures answers { ◌≡◌ {A = Searched} (record { solution = result; answer = answer.new }) (search_of limits list.now variables budget answer.old) }
    ensures number { SearchSays limits list.now variables budget answer.old result }
    ensures sound { SearchSound list.now variables result answer.new }
{
    if !limits_fit(limits) {
        return Err(Refusal::LimitsRange);
    }
    search_at(most_variables(limits), list, variables, budget, answer)
}

// The search at the limits of a caller that gives none.
pub fn search(
    list: &[u16],
    variables: usize,
    budget: u64,
    answer: &mut [u8],
) -> Result<u64, Refusal>
    ensures answers { ◌≡◌ {A = Searched} (record { solution = result; answer = answer.new }) (search_of standard list.now variables budget answer.old) }
    ensures number { SearchSays standard list.now variables budget answer.old result }
    ensures sound { SearchSound list.now variables result answer.new }
{
    search_within(limits::standard(), list, variables, budget, answer)
}

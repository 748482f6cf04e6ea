// What is left of a list after the first scan: a clause with a true literal holds for good, since nothing was guessed yet.
#![tactic(auto)]

ghost use Rattle.std.specs.Prelude.{◌≡◌, ◌++◌, ℕ, ◌+◌, ◌*◌, ◌≤◌, length, take, IfSome};
ghost use Rattle.lists.specs.Lists.{any};
ghost use Rattle.cnf.specs.Clauses.{value_of, clauses_in};
ghost use Rattle.cnf.specs.Search.{is_right};
ghost use Rattle.cnf.specs.Closing.{Formed};
ghost use Rattle.sat_trail.specs.Conclusions.{saying};
ghost use Rattle.sat_literal.specs.Literals.{Over, clause_at};
ghost use Rattle.sat_scan.specs.Scan.{StandsAt};
ghost use Rattle.sat_simplify.specs.Simplify.{SetIn, AllSet, units, lightened, clauses_at, variables_set, Lightens, LightensAll, Written, PutUnit, PutOpen};

use sat_literal::is_true;

// Whether a literal of the clause is right.
fn holds(literals: &[u16], values: &[u8]) -> bool
    requires { Over literals.now (length values.now) }
    ensures { result ≡ any (is_right values.now) literals.now }
{
    literals.iter().any(|l| is_true(values, *l))
}

// Puts words after the first `at` words; answers how many there are then.
fn put_words(words: &[u16], out: &mut [u16], at: usize) -> usize
    requires { at + length words.now ≤ length out.old }
    ensures { (result ≡ at + length words.now) × (take result out.new ≡ take at out.old ++ words.now) }
{
    let end = at + words.len();
    out[at..end].copy_from_slice(words);
    end
}

// The literal of a variable that is right.
fn right_literal(values: &[u8], x: u16) -> u16
    requires { (length values.now ≤ 780) × SetIn values.now x }
    ensures { result ≡ saying x (value_of values.now x) }
{
    2 * x + (1 - u16::from(values[usize::from(x)]))
}

// Puts a clause of the right literal of a variable after the first `at` words; answers how many there are then.
fn put_unit(values: &[u8], x: u16, out: &mut [u16], at: usize) -> usize
    requires { (length values.now ≤ 780) × SetIn values.now x × (at + 2 ≤ length out.old) }
    ensures { PutUnit values.now x out.old at out.new result }
{
    let unit = [1, right_literal(values, x)];
    put_words(&unit, out, at)
}

// Puts a clause of its right literal for each of the variables; answers how many words there are.
fn put_units(values: &[u8], variables: &[u16], out: &mut [u16]) -> usize
    requires values_len_bound { (length values.now ≤ 780) × (2 * length variables.now ≤ length out.old) }
    requires all_set { AllSet values.now variables.now }
    ensures { (result ≡ 2 * length variables.now) × Written out.new result (units values.now variables.now) }
{
    let mut at: usize = 0;
    'variables: for x in variables {
        at = put_unit(values, *x, out, at);
    }
    at
}

// Puts a clause of its right literal for each variable that is set; answers how many words there are.
fn put_set(values: &[u8], out: &mut [u16]) -> usize
    requires values_len_bound { (length values.now ≤ 780) × (2 * length values.now ≤ length out.old) }
    requires by_index { (x : ℕ) → value_of values.now x ≤ 2 }
    ensures { (result ≤ 2 * length values.now) × Written out.new result (units values.now (variables_set values.now)) }
{
    let mut at: usize = 0;
    'variables: for x in 0..values.len() {
        if values[x] == 2 {
            continue 'variables;
        }
        at = put_unit(values, x as u16, out, at);
    }
    at
}

// Puts the clause that begins at `start` after the first `at` words, unless it holds; answers how many there are then, where there is room.
fn put_open(list: &[u16], start: usize, values: &[u8], out: &mut [u16], at: usize) -> Option<usize>
    requires stands { StandsAt list.now start × Formed (clauses_in list.now) (length values.now) }
    requires room { at ≤ length out.old }
    ensures { IfSome result (λ k. (k ≤ length out.new) × PutOpen values.now (clause_at list.now start) out.old at out.new k) }
{
    let first = start + 1;
    let end = first + usize::from(list[start]);
    if holds(&list[first..end], values) {
        return Some(at);
    }
    if out.len() - at < end - start {
        return None;
    }
    Some(put_words(&list[start..end], out, at))
}

// What is left of the clauses at the places, where there is room: the variables that are set, and the clauses that do not hold. Answers how many words
// that is.
pub fn simplify(
    list: &[u16],
    places: &[u16],
    values: &[u8],
    variables: &[u16],
    out: &mut [u16],
) -> Option<usize>
    requires { Lightens list.now values.now variables.now places.now }
    ensures { IfSome result (λ k. (k ≤ length out.new) × Written out.new k (lightened values.now variables.now (clauses_at list.now places.now))) }
{
    if out.len() / 2 < variables.len() {
        return None;
    }
    let mut at = put_units(values, variables, out);
    'places: for place in places {
        at = put_open(list, usize::from(*place), values, out, at)?;
    }
    Some(at)
}

// The same of all clauses of the list, which is walked over, and all variables that are set.
pub fn simplify_all(list: &[u16], values: &[u8], out: &mut [u16]) -> Option<usize>
    requires { LightensAll list.now values.now }
    ensures { IfSome result (λ k. (k ≤ length out.new) × Written out.new k (lightened values.now (variables_set values.now) (clauses_in list.now))) }
{
    if out.len() / 2 < values.len() {
        return None;
    }
    let mut at = put_set(values, out);
    let mut start: usize = 0;
    'clauses: while start < list.len() {
        at = put_open(list, start, values, out, at)?;
        start = start + 1 + usize::from(list[start]);
    }
    Some(at)
}

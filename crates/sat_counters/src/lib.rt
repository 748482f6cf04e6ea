// A counter for each clause: the weights of its literals that are not false.
#![tactic(auto)]

ghost use Rattle.std.specs.Prelude.{◌≡◌, true, ◌≤◌, length};
ghost use Rattle.cnf.specs.Clauses.{clauses_in, whole};
ghost use Rattle.cnf.specs.Closing.{Formed};
ghost use Rattle.sat_literal.specs.Literals.{Over};
ghost use Rattle.sat_counters.specs.Counters.{weigh, CountersOf, Falls, Fell, Noted, Rises};

use sat_literal::clauses_of;

mod literal;

pub use literal::false_literal;

// Takes the weight of a literal that became false from the counters of its clauses, and notes those that have at most one literal left. Answers how many
// are noted.
pub fn decrement(places: &[u16], l: u16, counters: &mut [u32], noted: &mut [u16]) -> usize
    requires { Falls places.now l counters.old × (length places.now ≤ length noted.old) × (length noted.old ≤ 32768) × (length counters.old ≤ 32768) }
    ensures fell { Fell places.now l counters.old counters.new }
    ensures noted { Noted places.now counters.new noted.new result }
{
    let weight = u32::from(2048 + l);
    let mut count: usize = 0;
    'places: for place in places {
        let c = *place;
        let left = counters[usize::from(c)] - weight;
        counters[usize::from(c)] = left;
        noted[count] = c;
        if left < 4096 {
            count += 1;
        }
    }
    count
}

// Gives it back, where the literal is unset again.
pub fn increment(places: &[u16], l: u16, counters: &mut [u32])
    requires { Rises places.now l counters.old × (length places.now ≤ 32768) × (length counters.old ≤ 32768) }
    ensures { Fell places.now l counters.new counters.old }
{
    let weight = u32::from(2048 + l);
    'places: for place in places {
        counters[usize::from(*place)] += weight;
    }
}

// The weights of a clause's literals that are not false, added up.
fn weigh_clause(literals: &[u16], values: &[u8]) -> u32
    requires { Over literals.now (length values.now) × (length values.now ≤ 780) × (length literals.now ≤ 32768) }
    ensures { result ≡ weigh values.now literals.now }
{
    let mut sum: u32 = 0;
    'literals: for literal in literals {
        let l = *literal;
        if u16::from(values[usize::from(l / 2)]) != l % 2 {
            sum += u32::from(2048 + l);
        }
    }
    sum
}

// The counters of a list's clauses under the values. Answers how many clauses there are.
pub fn count_literals(list: &[u16], values: &[u8], counters: &mut [u32]) -> usize
    requires list_value { (whole list.now ≡ true) × Formed (clauses_in list.now) (length values.now) × (length values.now ≤ 780) }
    requires list_len_bound { (length list.now ≤ 32768) × (length (clauses_in list.now) ≤ length counters.old) × (length counters.old ≤ 32768) }
    ensures { CountersOf list.now values.now counters.new × (result ≡ length (clauses_in list.now)) }
{
    let mut count: usize = 0;
    'clauses: for literals in clauses_of(list) {
        counters[count] = weigh_clause(literals, values);
        count += 1;
    }
    count
}

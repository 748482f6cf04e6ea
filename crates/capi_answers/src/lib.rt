// An operation's answer as C has it: a number, 0 where nothing is refused, and the answer's values, stored where there is room for all of them.
#![tactic(auto)]

ghost use Rattle.std.specs.Prelude.{◌≡◌, List, ℕ};
ghost use Rattle.refusals.specs.Refusals.{number_in, one_value, values_in};
ghost use Rattle.table_spec.specs.Reading.{start_values};
ghost use Rattle.uses_spec.specs.Uses.{counted_values};
ghost use Rattle.choose_spec.specs.Choose.{which_values};
ghost use Rattle.clauses_spec.specs.Clauses.{listed_values};
ghost use Rattle.reduce_spec.specs.Reduce.{reduction_values};
ghost use Rattle.script_spec.specs.Script.{yes_values};
ghost use Rattle.records_spec.specs.Fates.{count_values};
ghost use Rattle.capi_values.specs.Storing.{stored};

use capi_values::{store, store_words, yes_value};
use choose_spec::Which;
use clauses_spec::Listed;
use records_spec::Counts;
use reduce_spec::Reduction;
use refusals::Refusal;
use table_spec::Starts;
use uses_spec::Counted;

// An answer that is no refusal: its values.
pub trait Answer: Drop {
    ghost values_of: { Self → List ℕ };

    // Stores the values, where there is room for all of them.
    fn put(self, values: &mut [u64])
        ensures { values.new ≡ stored (values_of self) values.old };
}

// The five section starts.
impl Answer for Starts {
    ghost values_of = { start_values };

    fn put(self, values: &mut [u64]) {
        let answer = [
            self.symbols as u64,
            self.states as u64,
            self.internals as u64,
            self.calls as u64,
            self.returns as u64,
        ];
        store(&answer, values);
    }
}

// Clauses and words.
impl Answer for Listed {
    ghost values_of = { listed_values };

    fn put(self, values: &mut [u64]) {
        let answer = [self.clauses as u64, self.words as u64];
        store(&answer, values);
    }
}

// The guesses made.
impl Answer for u64 {
    ghost values_of = { one_value };

    fn put(self, values: &mut [u64]) {
        store(&[self], values);
    }
}

// The class count, or the length of a table that is written.
impl Answer for usize {
    ghost values_of = { one_value };

    fn put(self, values: &mut [u64]) {
        store(&[self as u64], values);
    }
}

// Yes or no.
impl Answer for bool {
    ghost values_of = { yes_values };

    fn put(self, values: &mut [u64]) {
        store(&[yes_value(self)], values);
    }
}

// Classes, guesses, clause words, the length, joined pairs, the ceiling, and whether the budget was spent.
impl Answer for Reduction {
    ghost values_of = { reduction_values };

    fn put(self, values: &mut [u64]) {
        let answer = [
            self.classes as u64,
            self.guesses,
            self.words as u64,
            self.length as u64,
            self.joined as u64,
            self.ceiling as u64,
            yes_value(self.spent),
        ];
        store(&answer, values);
    }
}

// Records, and those of them that are kept, folded and dead.
impl Answer for Counts {
    ghost values_of = { count_values };

    fn put(self, values: &mut [u64]) {
        let answer = [
            self.all as u64,
            self.kept as u64,
            self.folded as u64,
            self.dead as u64,
        ];
        store(&answer, values);
    }
}

// The sums by class, and the total.
impl Answer for Counted {
    ghost values_of = { counted_values };

    fn put(self, values: &mut [u64]) {
        let sums = self.sums;
        store_words(&sums, self.total, values);
    }
}

// Which map: 1 for the first, 2 for the second.
impl Answer for Which {
    ghost values_of = { which_values };

    fn put(self, values: &mut [u64]) {
        match self {
            Which::First => store(&[1], values),
            Which::Second => store(&[2], values),
        }
    }
}

// The rows of a season's tables.
impl Answer for [u64; 64] {
    ghost values_of = { λ rows. rows };

    fn put(self, values: &mut [u64]) {
        store(&self, values);
    }
}

// The number of an answer, and its values stored.
pub fn say<T: Answer>(answer: Result<T, Refusal>, values: &mut [u64]) -> u32
    ensures number { result ≡ number_in answer }
    ensures values { values.new ≡ stored (values_in T.values_of answer) values.old }
{
    match answer {
        Ok(found) => {
            found.put(values);
            0
        }
        Err(refusal) => u32::from(refusal),
    }
}

// Does the second table accept every word of the first?
#![tactic(auto)]

ghost use Rattle.std.specs.Prelude.{◌≡◌};
ghost use Rattle.limits.specs.Limits.{standard};
ghost use Rattle.table_view.specs.Sections.{ReadAs};
ghost use Rattle.fit_spec.specs.Fit.{fit_of, FitSays};
ghost use Rattle.fit_spec.specs.Demands.{YesExactly, NoApart, FitsQuotient, FitsOn};
ghost use Rattle.fit_compare.specs.Compared.{BothRead};

use fit_compare::{fits, no_choice};
use refusals::Refusal;
use table_spec::Starts;
use table_view::Section;

// The answer for two tables that were read.
fn fit_both(first: &[u8], one: Starts, second: &[u8], two: Starts) -> Result<bool, Refusal>
    requires { BothRead first.now one second.now two }
    ensures { result ≡ fit_of first.now second.now }
{
    let symbols = table_view::part(first, one, Section::Symbols);
    if !check::same(symbols, table_view::part(second, two, Section::Symbols)) {
        return Err(Refusal::Symbols);
    }
    if !no_choice(second, two) {
        return Err(Refusal::Choices);
    }
    Ok(fits(first, one, second, two))
}

// The answer for a first table that was read.
fn fit_second(first: &[u8], one: Starts, second: &[u8]) -> Result<bool, Refusal>
    requires { ReadAs standard first.now one }
    ensures { result ≡ fit_of first.now second.now }
{
    let two = read::read(second)?;
    fit_both(first, one, second, two)
}

// Says whether the second table accepts every word of the first; or the first refusal that applies. Both are read at the limits of a caller that
// gives none.
pub fn fit(first: &[u8], second: &[u8]) -> Result<bool, Refusal>
    ensures answers { result ≡ fit_of first.now second.now }
    ensures number { FitSays first.now second.now result }
    ensures exact { YesExactly first.now second.now result }
    ensures apart { NoApart first.now second.now result }
    ensures quotient { FitsQuotient first.now second.now result }
    ensures transitive { FitsOn first.now second.now result }
{
    let one = read::read(first)?;
    fit_second(first, one, second)
}

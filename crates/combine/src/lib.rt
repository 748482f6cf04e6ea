// Two tables combined into one: the words that both accept, or those that one of them accepts.
#![tactic(auto)]

ghost use Rattle.std.specs.Prelude.{◌≡◌};
ghost use Rattle.limits.specs.Limits.{standard};
ghost use Rattle.table_view.specs.Sections.{ReadAs};
ghost use Rattle.combine_spec.specs.Combine.{combine_of, CombineSays};
ghost use Rattle.combine_spec.specs.Demands.{Promises};
ghost use Rattle.combine.specs.Parts.{BothRead};

use combine_spec::How;
use limits::Limits;
use refusals::Refusal;
use table_spec::Starts;
use table_view::{Section, part};

mod states;
mod write;

use states::state_count;
use write::write_combined;

// The answer for two tables that were read.
fn combine_both(
    limits: Limits,
    first: &[u8],
    one: Starts,
    second: &[u8],
    two: Starts,
    how: How,
    out: &mut [u8],
) -> Result<usize, Refusal>
    requires { BothRead limits first.now one second.now two }
    ensures { record { answer = result; out = out.new } ≡ combine_of limits how first.now second.now out.old }
{
    let symbols = part(first, one, Section::Symbols);
    if !check::same(symbols, part(second, two, Section::Symbols)) {
        return Err(Refusal::Symbols);
    }
    let own = part(first, one, Section::States);
    let other = part(second, two, Section::States);
    let states = limits.states;
    if states < state_count(how, own.len(), other.len()) {
        return Err(Refusal::Load);
    }
    write_combined(how, first, one, second, two, out)
}

// The answer for a first table that was read.
fn combine_second(
    limits: Limits,
    first: &[u8],
    one: Starts,
    second: &[u8],
    how: How,
    out: &mut [u8],
) -> Result<usize, Refusal>
    requires { ReadAs limits first.now one }
    ensures { record { answer = result; out = out.new } ≡ combine_of limits how first.now second.now out.old }
{
    let two = read::read_within(limits, second)?;
    combine_both(limits, first, one, second, two, how, out)
}

// Writes the combination of two tables that are read at limits: its length, or the first refusal that applies, the output then unchanged.
pub fn combine_within(
    limits: Limits,
    first: &[u8],
    second: &[u8],
    how: How,
    out: &mut [u8],
) -> Result<usize, Refusal>
    ensures answers { record { answer = result; out = out.new } ≡ combine_of limits how first.now second.now out.old }
    ensures number { CombineSays limits how first.now second.now out.old result }
    ensures promises { Promises limits how first.now second.now result out.new }
{
    let one = read::read_within(limits, first)?;
    combine_second(limits, first, one, second, how, out)
}

// Writes the combination, at the limits of a caller that gives none.
pub fn combine(first: &[u8], second: &[u8], how: How, out: &mut [u8]) -> Result<usize, Refusal>
    ensures answers { record { answer = result; out = out.new } ≡ combine_of standard how first.now second.now out.old }
    ensures number { CombineSays standard how first.now second.now out.old result }
    ensures promises { Promises standard how first.now second.now result out.new }
{
    combine_within(limits::standard(), first, second, how, out)
}

// Checking a state map.
#![tactic(auto)]

ghost use Rattle.std.specs.Prelude.{◌≡◌};
ghost use Rattle.lists.specs.Lists.{first_failed};
ghost use Rattle.limits.specs.Limits.{standard};
ghost use Rattle.refusals.specs.Refusals.{tested};
ghost use Rattle.table_spec.specs.File.{table_of};
ghost use Rattle.check_spec.specs.Check.{map_tests, check_of, CheckSays};
ghost use Rattle.check_spec.specs.Demands.{AcceptsExactly};
ghost use Rattle.check_map.specs.Known.{Known, PartedSections, section_tests};

use check_matching::labels_agree;
use check_numbering::{class_count, numbered};
use check_sections::{live_matched, records_matched};
use limits::Limits;
use refusals::Refusal;
use table_spec::Starts;
use table_view::Sections;
use tops::Examined;

// 15 to 20, over the parts of a table: the first that applies is the refusal.
fn test_parts(sections: &Sections<'_>, words: &[u64], map: &[u8]) -> Result<(), Refusal>
    requires { PartedSections sections.now }
    ensures { result ≡ tested (first_failed (section_tests sections.now words.now map.now)) }
{
    let Sections {
        states,
        internals,
        calls,
        returns,
        ..
    } = *sections;
    if map.len() != states.len() {
        return Err(Refusal::MapLength);
    }
    if !numbered(map) {
        return Err(Refusal::Numbering);
    }
    if !labels_agree(states, map) {
        return Err(Refusal::Disagreement);
    }
    if !records_matched(internals, 3, words, map) {
        return Err(Refusal::InternalUnmatched);
    }
    if !records_matched(calls, 3, words, map) {
        return Err(Refusal::CallUnmatched);
    }
    if !live_matched(returns, words, map) {
        return Err(Refusal::ReturnUnmatched);
    }
    Ok(())
}

// 15 to 20, of a table that was read and whose tops are known: the first that applies is the refusal. Its sections are handed on as parts of the file.
pub fn test_map(examined: &Examined<'_>, map: &[u8]) -> Result<(), Refusal>
    ensures { result ≡ tested (first_failed (map_tests (table_of examined.now.bytes.now) map.now)) }
{
    let sections = table_view::sections_of(examined.bytes, examined.starts);
    test_parts(&sections, &examined.words, map)
}

// The same of a table that was read and whose tops are known, by its bytes, its starts and these.
pub fn test_known(table: &[u8], starts: Starts, words: &[u64], map: &[u8]) -> Result<(), Refusal>
    requires { Known table.now starts words.now }
    ensures { result ≡ tested (first_failed (map_tests (table_of table.now) map.now)) }
{
    test_map(&tops::examined_known(table, starts, words), map)
}

// Checks a map of a table that is read at limits: the class count, or the first refusal that applies.
pub fn check_within(limits: Limits, table: &[u8], map: &[u8]) -> Result<usize, Refusal>
    ensures answers { result ≡ check_of limits table.now map.now }
    ensures number { CheckSays limits table.now map.now result }
    ensures exact { AcceptsExactly limits table.now map.now result }
{
    let examined = tops::examine(limits, table)?;
    test_map(&examined, map)?;
    Ok(class_count(map))
}

// Checks a map, at the limits of a caller that gives none.
pub fn check(table: &[u8], map: &[u8]) -> Result<usize, Refusal>
    ensures answers { result ≡ check_of standard table.now map.now }
    ensures number { CheckSays standard table.now map.now result }
    ensures exact { AcceptsExactly standard table.now map.now result }
{
    check_within(limits::standard(), table, map)
}

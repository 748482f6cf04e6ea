// Where the records of a table went under a map.
#![tactic(auto)]

ghost use Rattle.std.specs.Prelude.{◌≡◌, ◌+◌, ◌/◌, ◌≤◌, length};
ghost use Rattle.lists.specs.Lists.{over, first_failed};
ghost use Rattle.limits.specs.Limits.{standard};
ghost use Rattle.table_spec.specs.File.{table_of};
ghost use Rattle.check_spec.specs.Check.{map_tests, check_number};
ghost use Rattle.check_map.specs.Known.{WhereReadable};
ghost use Rattle.records_spec.specs.Fates.{fates_of, records_of, RecordsSays};
ghost use Rattle.records_spec.specs.Demands.{Promises};
ghost use Rattle.records.specs.Told.{FittingSections, section_marks, told_for};

use limits::Limits;
use records_fates::{count_of, mark_section};
use records_spec::Counts;
use refusals::Refusal;
use table_view::Sections;
use tops::Examined;

// The marks of the parts' records, one section after the other.
fn mark_parts(sections: &Sections<'_>, words: &[u64], map: &[u8], out: &mut [u8])
    requires fitting_parts { FittingSections sections.now map.now }
    requires returns_in_bounds { length sections.now.internals.now / 3
        + length sections.now.calls.now / 3 + length sections.now.returns.now / 4
        ≤ length out.old }
    ensures { out.new ≡ over (section_marks sections.now words.now map.now) out.old }
{
    let Sections {
        internals,
        calls,
        returns,
        ..
    } = *sections;
    let mut room = [0u8; 102400];
    mark_section(3, internals, words, map, 0, &mut room, out);
    let mut at = internals.len() / 3;
    mark_section(3, calls, words, map, 40, &mut room, &mut out[at..]);
    at += calls.len() / 3;
    mark_section(4, returns, words, map, 80, &mut room, &mut out[at..]);
}

// The marks of the parts' records and their counts; or 21.
fn tell_parts(
    sections: &Sections<'_>,
    words: &[u64],
    map: &[u8],
    out: &mut [u8],
) -> Result<Counts, Refusal>
    requires { FittingSections sections.now map.now }
    ensures { record { answer = result; out = out.new } ≡ told_for (section_marks sections.now words.now map.now) out.old }
{
    let Sections {
        internals,
        calls,
        returns,
        ..
    } = *sections;
    let all = internals.len() / 3 + calls.len() / 3 + returns.len() / 4;
    if out.len() < all {
        return Err(Refusal::OutputLength);
    }
    mark_parts(sections, words, map, out);
    let marks = &out[..all];
    Ok(Counts {
        all,
        kept: count_of(marks, 0),
        folded: count_of(marks, 1),
        dead: count_of(marks, 2),
    })
}

// The records of a read table under a map that the check accepts: its sections are handed on as parts of the file.
fn tell_read(examined: &Examined<'_>, map: &[u8], out: &mut [u8]) -> Result<Counts, Refusal>
    requires { first_failed (map_tests (table_of examined.now.bytes.now) map.now) ≡ 0 }
    ensures { record { answer = result; out = out.new } ≡ told_for (fates_of (table_of examined.now.bytes.now) map.now) out.old }
{
    let sections = table_view::sections_of(examined.bytes, examined.starts);
    tell_parts(&sections, &examined.words, map, out)
}

// The records of a table under a map that the check accepts at these limits, as its caller knows: the map is not checked again.
pub fn records_accepted(
    limits: Limits,
    table: &[u8],
    map: &[u8],
    out: &mut [u8],
) -> Result<Counts, Refusal>
    requires { check_number limits table.now map.now ≡ 0 }
    ensures { record { answer = result; out = out.new } ≡ records_of limits table.now map.now out.old }
{
    let examined = tops::examine(limits, table)?;
    tell_read(&examined, map, out)
}

// The records of a table that was read and whose tops are known, at any limits at which it is readable: refused as the check refuses the map, or
// by 21, or told.
fn records_known(examined: &Examined<'_>, map: &[u8], out: &mut [u8]) -> Result<Counts, Refusal>
    ensures { WhereReadable examined.now.bytes.now
        (λ L. record { answer = result; out = out.new } ≡ records_of L examined.now.bytes.now map.now out.old) }
{
    check_map::test_map(examined, map)?;
    tell_read(examined, map, out)
}

// Tells where the records went of a table that is read at limits, under a map: how many there are, how many are kept, folded and dead, and a byte
// for each in the output; or the first refusal that applies, the output then unchanged.
pub fn records_within(
    limits: Limits,
    table: &[u8],
    map: &[u8],
    out: &mut [u8],
) -> Result<Counts, Refusal>
    ensures answers { record { answer = result; out = out.new } ≡ records_of limits table.now map.now out.old }
    ensures number { RecordsSays limits table.now map.now out.old result }
    ensures promises { Promises table.now map.now result out.new }
{
    let examined = tops::examine(limits, table)?;
    records_known(&examined, map, out)
}

// The same at the limits of a caller that gives none.
pub fn records(table: &[u8], map: &[u8], out: &mut [u8]) -> Result<Counts, Refusal>
    ensures answers { record { answer = result; out = out.new } ≡ records_of standard table.now map.now out.old }
    ensures number { RecordsSays standard table.now map.now out.old result }
    ensures promises { Promises table.now map.now result out.new }
{
    records_within(limits::standard(), table, map, out)
}

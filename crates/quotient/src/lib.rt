// Writing the quotient of a table under a map.
#![tactic(auto)]

ghost use Rattle.std.specs.Prelude.{◌≡◌};
ghost use Rattle.limits.specs.Limits.{standard};
ghost use Rattle.table_spec.specs.File.{bytes_of};
ghost use Rattle.check_map.specs.Known.{Known, WhereReadable};
ghost use Rattle.quotient_spec.specs.Quotient.{quotient_bytes, quotient_of, QuotientSays};
ghost use Rattle.quotient_spec.specs.Demands.{Promises};
ghost use Rattle.table_write.specs.Tables.{written_for};
ghost use Rattle.quotient.specs.Parts.{SizedSections, section_quotient};

use check_numbering::class_count;
use limits::Limits;
use quotient_images::collect;
use refusals::Refusal;
use table_spec::Starts;
use table_view::Sections;
use table_write::put_table;
use tops::Examined;

mod states;

use states::put_states;

// The quotient over the version and the parts of a table: its length is known before anything is written.
fn write_parts(
    version: usize,
    sections: &Sections<'_>,
    words: &[u64],
    map: &[u8],
    out: &mut [u8],
) -> Result<usize, Refusal>
    requires { SizedSections sections.now }
    ensures { record { answer = result; out = out.new }
        ≡ written_for (bytes_of (section_quotient version sections.now words.now map.now)) out.old }
{
    let Sections {
        symbols,
        states,
        internals,
        calls,
        returns,
    } = *sections;
    let classes = class_count(map);
    let mut internal_keys = [0u32; 1024];
    let i = collect(3, internals, words, map, &mut internal_keys);
    let mut call_keys = [0u32; 1024];
    let c = collect(3, calls, words, map, &mut call_keys);
    let mut return_keys = [0u32; 4096];
    let r = collect(4, returns, words, map, &mut return_keys);
    let length = symbols.len() + classes + 3 * i + 3 * c + 4 * r + 12;
    if out.len() < length {
        return Err(Refusal::OutputLength);
    }
    let mut state_bytes = [0u8; 256];
    put_states(states, map, classes, &mut state_bytes);
    put_table(
        version,
        symbols,
        &state_bytes[..classes],
        &internal_keys[..i],
        &call_keys[..c],
        &return_keys[..r],
        out,
    );
    Ok(length)
}

// The quotient of a read table under a properly numbered map.
fn write_read(examined: &Examined<'_>, map: &[u8], out: &mut [u8]) -> Result<usize, Refusal>
    ensures { record { answer = result; out = out.new } ≡ written_for (quotient_bytes examined.now.bytes.now map.now) out.old }
{
    let bytes = examined.bytes;
    let sections = table_view::sections_of(bytes, examined.starts);
    write_parts(
        read::version_of(bytes),
        &sections,
        &examined.words,
        map,
        out,
    )
}

// The quotient of a table that was read and whose tops are known, at any limits at which it is readable: refused as the check refuses the map, or
// by 21, or written.
pub fn quotient_known(examined: &Examined<'_>, map: &[u8], out: &mut [u8]) -> Result<usize, Refusal>
    ensures { WhereReadable examined.now.bytes.now
        (λ L. record { answer = result; out = out.new } ≡ quotient_of L examined.now.bytes.now map.now out.old) }
{
    check_map::test_map(examined, map)?;
    write_read(examined, map, out)
}

// The same of a table that was read and whose tops are known, by its bytes, its starts and these.
pub fn quotient_lent(
    table: &[u8],
    starts: Starts,
    words: &[u64],
    map: &[u8],
    out: &mut [u8],
) -> Result<usize, Refusal>
    requires { Known table.now starts words.now }
    ensures { WhereReadable table.now (λ L. record { answer = result; out = out.new } ≡ quotient_of L table.now map.now out.old) }
{
    quotient_known(&tops::examined_known(table, starts, words), map, out)
}

// Writes the quotient of a table that is read at limits under a map: its length, or the first refusal that applies, the output then unchanged.
pub fn quotient_within(
    limits: Limits,
    table: &[u8],
    map: &[u8],
    out: &mut [u8],
) -> Result<usize, Refusal>
    ensures answers { record { answer = result; out = out.new } ≡ quotient_of limits table.now map.now out.old }
    ensures number { QuotientSays limits table.now map.now out.old result }
    ensures promises { Promises limits table.now map.now result out.new }
{
    let examined = tops::examine(limits, table)?;
    quotient_known(&examined, map, out)
}

// Writes the quotient, at the limits of a caller that gives none.
pub fn quotient(table: &[u8], map: &[u8], out: &mut [u8]) -> Result<usize, Refusal>
    ensures answers { record { answer = result; out = out.new } ≡ quotient_of standard table.now map.now out.old }
    ensures number { QuotientSays standard table.now map.now out.old result }
    ensures promises { Promises standard table.now map.now result out.new }
{
    quotient_within(limits::standard(), table, map, out)
}

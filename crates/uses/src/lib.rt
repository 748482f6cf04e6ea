// Use counts by class.
#![tactic(auto)]

ghost use Rattle.std.specs.Prelude.{◌≡◌, ◌*◌, ◌≤◌, length};
ghost use Rattle.std.specs.Result.{IfOk};
ghost use Rattle.lists.specs.Lists.{first_failed};
ghost use Rattle.limits.specs.Limits.{standard};
ghost use Rattle.uses_spec.specs.Uses.{lines_tests, counted, answer_by, uses_of, UsesSays};
ghost use Rattle.uses_spec.specs.Demands.{Fits, Promises};
ghost use Rattle.uses.specs.Classes.{FewClasses};

use limits::Limits;
use refusals::Refusal;
use uses_spec::Counted;

mod lines;

use lines::{LINE, state_in, test_lines, uses_in};

// The sums and the total, in one pass over the lines.
fn add_lines(lines: &[u8], map: &[u8]) -> Counted
    requires { (length lines.now ≤ 5 * 65536) × FewClasses map.now }
    ensures value { result ≡ counted map.now lines.now }
    ensures fits { Fits result }
{
    let mut sums = [0u64; 40];
    let mut total: u64 = 0;
    'lines: for line in lines.chunks_exact(LINE) {
        let uses = uses_in(line);
        let class = usize::from(check_numbering::class_of(map, state_in(line)));
        sums[class] += uses;
        total += uses;
    }
    Counted { sums, total }
}

// The lines under a map that has one byte for each state of the table.
fn uses_under(map: &[u8], lines: &[u8]) -> Result<Counted, Refusal>
    requires { FewClasses map.now }
    ensures value { result ≡ answer_by (first_failed (lines_tests (length map.now) lines.now)) map.now lines.now }
    ensures fits { IfOk result Fits }
{
    test_lines(lines, map.len())?;
    Ok(add_lines(lines, map))
}

// Adds up the use counts of lines by the classes of a map, of a table that is read at limits; or the first refusal that applies.
pub fn uses_within(
    limits: Limits,
    table: &[u8],
    map: &[u8],
    lines: &[u8],
) -> Result<Counted, Refusal>
    ensures answers { result ≡ uses_of limits table.now map.now lines.now }
    ensures promises { Promises limits table.now map.now lines.now result }
    ensures number { UsesSays limits table.now map.now lines.now result }
{
    check_map::check_within(limits, table, map)?;
    uses_under(map, lines)
}

// Adds up the use counts of lines by class, at the limits of a caller that gives none.
pub fn uses(table: &[u8], map: &[u8], lines: &[u8]) -> Result<Counted, Refusal>
    ensures answers { result ≡ uses_of standard table.now map.now lines.now }
    ensures promises { Promises standard table.now map.now lines.now result }
    ensures number { UsesSays standard table.now map.now lines.now result }
{
    uses_within(limits::standard(), table, map, lines)
}

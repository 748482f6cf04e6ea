// 38: a second table with a choice.
ghost use Rattle.std.specs.Prelude.{◌≡◌, true, ◌-◌, ◌≤◌, length};
ghost use Rattle.lists.specs.Lists.{filter};
ghost use Rattle.limits.specs.Limits.{standard};
ghost use Rattle.table_spec.specs.File.{table_of, records};
ghost use Rattle.table_spec.specs.Reading.{is_initial, ascend};
ghost use Rattle.table_view.specs.Sections.{ReadAs};
ghost use Rattle.fit_spec.specs.Fit.{one_target, no_choice};

use table_spec::Starts;
use table_view::Section;

// How many states are initial.
fn initials(states: &[u8]) -> usize
    ensures { result ≡ length (filter is_initial states.now) }
{
    let mut count: usize = 0;
    'states: for state in states {
        if *state % 2 == 1 {
            count += 1;
        }
    }
    count
}

// No two records of a section differ in their target alone: they ascend, so two that do would stand side by side somewhere.
fn one_target(width: usize, section: &[u8]) -> bool
    requires { (3 ≤ width) × (ascend (records width section.now) ≡ true) }
    ensures { result ≡ one_target (width - 1) (records width section.now) }
{
    if section.len() < width {
        return true;
    }
    let mut last = &section[..width];
    'records: for fields in section[width..].chunks_exact(width) {
        if last[..width - 1] == fields[..width - 1] {
            return false;
        }
        last = fields;
    }
    true
}

// One initial state, and at most one target for a move.
pub fn no_choice(table: &[u8], starts: Starts) -> bool
    requires { ReadAs standard table.now starts }
    ensures { result ≡ no_choice (table_of table.now) }
{
    if initials(table_view::part(table, starts, Section::States)) != 1 {
        return false;
    }
    if !one_target(3, table_view::part(table, starts, Section::Internals)) {
        return false;
    }
    if !one_target(3, table_view::part(table, starts, Section::Calls)) {
        return false;
    }
    one_target(4, table_view::part(table, starts, Section::Returns))
}

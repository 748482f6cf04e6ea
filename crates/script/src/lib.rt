// Reading a script: by levels, which say what is reached on the empty stack and after each open call.
#![tactic(auto)]

ghost use Rattle.std.specs.Prelude.{◌≡◌, ◌≤◌, length};
ghost use Rattle.lists.specs.Lists.{first_failed};
ghost use Rattle.limits.specs.Limits.{standard};
ghost use Rattle.table_spec.specs.File.{table_of};
ghost use Rattle.table_view.specs.Sections.{HasRead};
ghost use Rattle.script_spec.specs.Script.{script_tests, answer_by, script_of, ScriptSays};
ghost use Rattle.table_index.specs.Index.{LentParts};
ghost use Rattle.script.specs.Parts.{Fits, sections_read};
ghost use Rattle.script_spec.specs.Demands.{ScriptExact};

use limits::Limits;
use refusals::Refusal;
use script_levels::{ended, moved, returned};
use table_index::starts_of;
use table_spec::Starts;
use table_view::Section;

mod depth;

use depth::test_script;

// Yes or no, of a script that is not refused.
fn reads(
    symbols: &[u8],
    states: &[u8],
    internals: &[u8],
    calls: &[u8],
    returns: &[u8],
    script: &[u8],
) -> bool
    requires { LentParts states.now internals.now calls.now returns.now × (length symbols.now ≤ 64) × Fits symbols.now script.now }
    ensures { result ≡ sections_read symbols.now states.now internals.now calls.now returns.now script.now }
{
    let n = states.len();
    let moves = starts_of(internals, 3, n);
    let opens = starts_of(calls, 3, n);
    let closes = starts_of(returns, 4, n);
    let mut level = [0u64; 40];
    tops::start_words(states, &mut level);
    let mut levels = [[0u64; 40]; 64];
    let mut depth: usize = 0;
    'script: for symbol in script {
        let a = usize::from(*symbol);
        let kind = symbols[a];
        if kind == 0 {
            level = moved(internals, &moves, n, a, false, &level);
            continue 'script;
        }
        if kind == 1 {
            levels[depth] = level;
            depth += 1;
            level = moved(calls, &opens, n, a, true, &level);
            continue 'script;
        }
        if depth == 0 {
            return false;
        }
        depth -= 1;
        let below = levels[depth];
        level = returned(returns, &closes, n, a, &level, &below);
    }
    if depth != 0 {
        return false;
    }
    ended(states, &level)
}

// The script on a table that was read: its sections are handed on as parts of the file.
fn read_known(table: &[u8], starts: Starts, script: &[u8]) -> Result<bool, Refusal>
    requires { HasRead table.now starts }
    ensures { result ≡ answer_by (first_failed (script_tests (table_of table.now).symbols script.now)) (table_of table.now) script.now }
{
    let symbols = table_view::part(table, starts, Section::Symbols);
    test_script(symbols, script)?;
    Ok(reads(
        symbols,
        table_view::part(table, starts, Section::States),
        table_view::part(table, starts, Section::Internals),
        table_view::part(table, starts, Section::Calls),
        table_view::part(table, starts, Section::Returns),
        script,
    ))
}

// Reads a script on a table that is read at limits: yes or no, or the first refusal that applies.
pub fn script_within(limits: Limits, table: &[u8], script: &[u8]) -> Result<bool, Refusal>
    ensures answers { result ≡ script_of limits table.now script.now }
    ensures number { ScriptSays limits table.now script.now result }
    ensures exact { ScriptExact table.now script.now result }
{
    let starts = read::read_within(limits, table)?;
    read_known(table, starts, script)
}

// Reads a script, at the limits of a caller that gives none.
pub fn script(table: &[u8], script: &[u8]) -> Result<bool, Refusal>
    ensures answers { result ≡ script_of standard table.now script.now }
    ensures number { ScriptSays standard table.now script.now result }
    ensures exact { ScriptExact table.now script.now result }
{
    script_within(limits::standard(), table, script)
}

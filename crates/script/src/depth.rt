// What refuses a script on a table that was read: a symbol past the count, or too many open calls.
ghost use Rattle.std.specs.Prelude.{◌≡◌, true, length, get_or};
ghost use Rattle.lists.specs.Lists.{first_failed};
ghost use Rattle.refusals.specs.Refusals.{tested};
ghost use Rattle.script_spec.specs.Script.{symbols_fit, too_deep, script_tests};

use refusals::Refusal;

// "up to 64 calls open"
const OPEN: usize = 64;

// 30: every symbol is below the count.
#[tactic(auto, unfolding(script_spec::specs::Script::symbols_fit))]
fn symbols_fit(symbols: &[u8], script: &[u8]) -> bool
    ensures { result ≡ symbols_fit (length symbols.now) script.now }
{
    script.iter().all(|a| usize::from(*a) < symbols.len())
}

// 31: by the symbols' kinds alone.
fn too_deep(symbols: &[u8], script: &[u8]) -> bool
    requires { symbols_fit (length symbols.now) script.now ≡ true }
    ensures { result ≡ too_deep (λ a. get_or symbols.now a 0) 0 script.now }
{
    let mut depth: usize = 0;
    'script: for a in script {
        let kind = symbols[usize::from(*a)];
        if kind == 0 {
            continue 'script;
        }
        if kind == 1 {
            if depth == OPEN {
                return true;
            }
            depth += 1;
            continue 'script;
        }
        if depth == 0 {
            return false;
        }
        depth -= 1;
    }
    false
}

// 30 and 31: the first that applies is the refusal.
pub fn test_script(symbols: &[u8], script: &[u8]) -> Result<(), Refusal>
    ensures { result ≡ tested (first_failed (script_tests symbols.now script.now)) }
{
    if !symbols_fit(symbols, script) {
        return Err(Refusal::ScriptSymbol);
    }
    if too_deep(symbols, script) {
        return Err(Refusal::OpenCalls);
    }
    Ok(())
}

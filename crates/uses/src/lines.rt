// The lines of use counts: what a line says, and what refuses the lines.
ghost use Rattle.std.specs.Prelude.{◌≡◌, ◌≤◌, length};
ghost use Rattle.lists.specs.Lists.{first_failed};
ghost use Rattle.uses_spec.specs.Uses.{line_of, states_fit, lines_tests};
ghost use Rattle.refusals.specs.Refusals.{tested};

use refusals::Refusal;

// The bytes of a line: "a state (one byte) and a use count (32 bits, little-endian)".
pub const LINE: usize = 5;

// "over 65,536 lines"
const LINES: usize = 65536;

// The state of a line.
pub fn state_in(line: &[u8]) -> usize
    requires { length line.now ≡ 5 }
    ensures { result ≡ (line_of line.now).state }
{
    usize::from(line[0])
}

// The use count of a line, the lowest byte first.
pub fn uses_in(line: &[u8]) -> u64
    requires { length line.now ≡ 5 }
    ensures value { result ≡ (line_of line.now).uses }
    ensures small { result ≤ 4294967295 }
{
    u64::from(u32::from_le_bytes([line[1], line[2], line[3], line[4]]))
}

// 33: every line's state is below n.
fn states_fit(lines: &[u8], n: usize) -> bool
    ensures { result ≡ states_fit n lines.now }
{
    'lines: for line in lines.chunks_exact(LINE) {
        if n <= state_in(line) {
            return false;
        }
    }
    true
}

// 32 and 33, for a table of n states: the first that applies is the refusal.
pub fn test_lines(lines: &[u8], n: usize) -> Result<(), Refusal>
    ensures { result ≡ tested (first_failed (lines_tests n lines.now)) }
{
    if lines.len() % LINE != 0 {
        return Err(Refusal::Lines);
    }
    if LINES < lines.len() / LINE {
        return Err(Refusal::Lines);
    }
    if !states_fit(lines, n) {
        return Err(Refusal::LineState);
    }
    Ok(())
}

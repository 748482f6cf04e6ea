// The literal of a variable that is false.
ghost use Rattle.std.specs.Prelude.{◌≡◌, ◌+◌, ◌*◌, ◌<◌, ◌≤◌, length};
ghost use Rattle.cnf.specs.Clauses.{value_of};

// 2x where x is 0, and 2x + 1 where x is 1.
pub fn false_literal(values: &[u8], x: u16) -> usize
    requires { (x < length values.now) × (value_of values.now x < 2) }
    ensures { result ≡ 2 * x + value_of values.now x }
{
    2 * usize::from(x) + usize::from(values[usize::from(x)])
}

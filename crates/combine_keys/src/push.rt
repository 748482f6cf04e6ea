// Keys put one after the other into a buffer.
ghost use Rattle.std.specs.Prelude.{[], ◌∷◌, ◌<◌, ◌≤◌};
ghost use Rattle.combine_keys.specs.Adding.{Adds, row_keys, target_keys};

// One key more, where there is room for it; how many there are then.
pub fn push(keys: &mut [u32], count: usize, key: usize) -> Option<usize>
    requires { key < 4294967296 }
    ensures { Adds (key ∷ []) keys.old count keys.new result }
{
    if count < keys.len() {
        keys[count] = key as u32;
        return Some(count + 1);
    }
    None
}

// One target of the first with each target of the second, after the other bytes of their record.
fn add_row(
    width: usize,
    section: &[u8],
    prefix: usize,
    base: usize,
    keys: &mut [u32],
    count: usize,
) -> Option<usize>
    requires { (1 ≤ width) × (prefix < 8388608) × (base ≤ 16384) }
    ensures { Adds (row_keys prefix base width section.now) keys.old count keys.new result }
{
    let mut held = count;
    'records: for fields in section.chunks_exact(width) {
        let target = usize::from(fields[width - 1]);
        held = push(keys, held, prefix * 256 + (base + target))?;
    }
    Some(held)
}

// Each target of the first with each of the second.
pub fn add_targets(
    width: usize,
    first: &[u8],
    second: &[u8],
    states: usize,
    prefix: usize,
    keys: &mut [u32],
    count: usize,
) -> Option<usize>
    requires { (1 ≤ width) × (prefix < 8388608) × (states ≤ 40) }
    ensures { Adds (target_keys prefix states width first.now second.now) keys.old count keys.new result }
{
    let mut held = count;
    'records: for fields in first.chunks_exact(width) {
        let base = usize::from(fields[width - 1]) * states;
        held = add_row(width, second, prefix, base, keys, held)?;
    }
    Some(held)
}

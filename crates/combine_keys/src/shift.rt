// The sum: the records of the first, then those of the second with their states shifted.
ghost use Rattle.std.specs.Prelude.{◌≡◌, ◌≤◌, length};
ghost use Rattle.table_spec.specs.File.{records};
ghost use Rattle.table_write.specs.Keys.{keys_of};
ghost use Rattle.combine_spec.specs.Combine.{both_records};
ghost use Rattle.combine_keys.specs.Adding.{Adds, Collected, shifted_keys};
ghost use Rattle.combine_keys.specs.Factors.{Summands, Small, offset};

use super::push::push;
use table_find::number_at;

// What the key of a record gains where its states are shifted: each state is one byte of it.
fn offset(width: usize, states: usize) -> usize
    requires { states ≤ 40 }
    ensures { result ≡ offset width states }
{
    if width == 3 {
        return states * 65537;
    }
    states * 16777473
}

// The keys of a section's records, each with the offset added.
fn add_shifted(
    width: usize,
    section: &[u8],
    by: usize,
    keys: &mut [u32],
    count: usize,
) -> Option<usize>
    requires { (3 ≤ width) × (width ≤ 4) × Small width by section.now }
    ensures { Adds (shifted_keys by width section.now) keys.old count keys.new result }
{
    let mut held = count;
    'records: for fields in section.chunks_exact(width) {
        held = push(keys, held, number_at(fields, width, 0) as usize + by)?;
    }
    Some(held)
}

// The records of a section of the sum; how many there are.
pub fn sum(
    width: usize,
    states: usize,
    first: &[u8],
    second: &[u8],
    keys: &mut [u32],
) -> Option<usize>
    requires { Summands width states first.now second.now }
    ensures { Collected (length keys.old) (keys_of (both_records states (records width first.now) (records width second.now)))
        keys.new result }
{
    let count = add_shifted(width, first, 0, keys, 0)?;
    add_shifted(width, second, offset(width, states), keys, count)
}

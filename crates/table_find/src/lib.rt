// The records of a section that start with a key, found through the file's order. Records and keys are compared as numbers.
#![tactic(auto)]

ghost use Rattle.std.specs.Prelude.{◌≡◌, [], ◌∷◌, ◌+◌, ◌-◌, ◌*◌, ◌/◌, ◌^◌, ◌<◌, ◌≤◌, length, take, drop};
ghost use Rattle.table_find.specs.Keys.{key, Keyed};
ghost use Rattle.table_find.specs.Spans.{FirstOf, LastFrom, StartingOf};

// One byte more after the bytes of a number.
pub fn with_byte(number: u32, byte: u8) -> u32
    requires { number < 16777216 }
    ensures { result ≡ number * 256 + byte }
{
    number * 256 + u32::from(byte)
}

// The key of the moves of a state by a symbol.
pub fn move_key(q: u8, a: u8) -> u32
    ensures { Keyed 3 (q ∷ a ∷ []) result }
{
    with_byte(with_byte(0, q), a)
}

// The key of the returns of a state by a symbol over a stack state.
pub fn return_key(q: u8, a: u8, s: u8) -> u32
    ensures { Keyed 4 (q ∷ a ∷ s ∷ []) result }
{
    with_byte(with_byte(with_byte(0, q), a), s)
}

// The number of the two bytes at a place.
fn two_at(section: &[u8], at: usize) -> u32
    requires { at + 1 < length section.now }
    ensures { result ≡ key (take 2 (drop at section.now)) }
{
    with_byte(with_byte(0, section[at]), section[at + 1])
}

// The number of the four bytes at a place.
fn four_at(section: &[u8], at: usize) -> u32
    requires { at + 3 < length section.now }
    ensures { result ≡ key (take 4 (drop at section.now)) }
{
    with_byte(
        with_byte(two_at(section, at), section[at + 2]),
        section[at + 3],
    )
}

// The number of a record of 3 or 4 bytes, its first byte the highest.
pub fn number_at(section: &[u8], width: usize, at: usize) -> u32
    requires { (3 ≤ width) × (width ≤ 4) × (at + width ≤ length section.now) }
    ensures { result ≡ key (take width (drop at section.now)) }
{
    if width == 3 {
        return with_byte(two_at(section, at), section[at + 2]);
    }
    four_at(section, at)
}

// The number of an even number of bytes of record i, which are read at once: the first two of three, or all four.
fn even_at(section: &[u8], width: usize, i: usize) -> u32
    requires { (3 ≤ width) × (width ≤ 4) × (i < length section.now / width) }
    ensures { result ≡ key (take (2 * (width - 2)) (drop (i * width) section.now)) }
{
    let at = i * width;
    if width == 3 {
        return two_at(section, at);
    }
    four_at(section, at)
}

// The lowest such number of a record that starts with the key.
fn lowest_at(width: usize, wanted: u32) -> u32
    requires { (3 ≤ width) × (width ≤ 4) × (wanted < 16777216) }
    ensures { result ≡ wanted * 256 ^ (width - 3) }
{
    if width == 3 {
        return wanted;
    }
    wanted * 256
}

// The number of record i without its last byte.
fn key_at(section: &[u8], width: usize, i: usize) -> u32
    requires { (3 ≤ width) × (width ≤ 4) × (i < length section.now / width) }
    ensures { result ≡ key (take width (drop (i * width) section.now)) / 256 }
{
    number_at(section, width, i * width) / 256
}

// The first record that does not stand before the key, by halves; their count where there is none.
fn first_at(section: &[u8], width: usize, wanted: u32) -> usize
    requires { (3 ≤ width) × (width ≤ 4) × (wanted < 16777216) }
    ensures within { result ≤ length section.now / width }
    ensures first { FirstOf width section.now wanted result }
{
    let lowest = lowest_at(width, wanted);
    let mut low: usize = 0;
    let mut high = section.len() / width;
    // not `partition_point`: that goes over the elements of a slice, and a record is `width` bytes of the section
    'halves: while low < high {
        let middle = low + (high - low) / 2;
        if even_at(section, width, middle) < lowest {
            low = middle + 1;
        } else {
            high = middle;
        }
    }
    low
}

// Behind the last of the records that start with the key, from one of them on.
fn last_at(section: &[u8], width: usize, wanted: u32, from: usize) -> usize
    requires { (3 ≤ width) × (width ≤ 4) × (from ≤ length section.now / width) }
    ensures within { (from ≤ result) × (result ≤ length section.now / width) }
    ensures last { LastFrom width section.now wanted from result }
{
    let count = section.len() / width;
    'records: for i in from..count {
        if key_at(section, width, i) != wanted {
            return i;
        }
    }
    count
}

// The part of the section whose records start with the key, by the key's number.
pub fn equal_range<'a>(section: &'a [u8], width: usize, wanted: u32) -> &'a [u8]
    ensures { StartingOf width section.now wanted result.now }
{
    if width < 3 {
        return &section[..0];
    }
    if 4 < width {
        return &section[..0];
    }
    if 16777215 < wanted {
        return &section[..0];
    }
    let from = first_at(section, width, wanted);
    let to = last_at(section, width, wanted, from);
    let at = from * width;
    let end = to * width;
    &section[at..end]
}

// Whether a map's relation meets the conditions (i) to (iv) of Definition 1.
#![tactic(auto)]

ghost use Rattle.std.specs.Prelude.{◌≡◌, true, ◌<◌, ◌≤◌, length, get_or, eqb};
ghost use Rattle.lists.specs.Lists.{any};
ghost use Rattle.lists.specs.Bits.{has};
ghost use Rattle.table_spec.specs.File.{records, of_states};
ghost use Rattle.table_spec.specs.Reading.{ascend};
ghost use Rattle.table_spec.specs.Language.{targets};
ghost use Rattle.table_spec.specs.Maps.{class_of, joins};
ghost use Rattle.table_find.specs.Keys.{ByKey};
ghost use Rattle.check_spec.specs.Check.{labels_agree, return_matched};
ghost use Rattle.check_matching.specs.Matching.{kept, return_met, record_matched, record_met, records_matched, Lent};

use check_numbering::class_of;

// Top x is in word q.
fn has_top(words: &[u64], q: usize, x: usize) -> bool
    ensures { result ≡ has words.now q x }
{
    if words.len() <= q {
        return false;
    }
    if 63 < x {
        return false;
    }
    bits::has_bit(words[q], x)
}

// A move, or a return that is live.
pub fn keeps(words: &[u64], fields: &[u8]) -> bool
    ensures { result ≡ kept words.now fields.now }
{
    if fields.len() < 4 {
        return true;
    }
    has_top(words, usize::from(fields[0]), usize::from(fields[2]))
}

// "The map joins two states where their class numbers are equal": a state is in the class of another.
fn is_in(map: &[u8], class: u8, q: usize) -> bool
    ensures { result ≡ eqb class (class_of map.now q) }
{
    class == class_of(map, q)
}

// (i) "joined states agree on mark and accepting": what the first state of each class has is kept by its class.
pub fn labels_agree(states: &[u8], map: &[u8]) -> bool
    ensures { result ≡ labels_agree (of_states states.now) map.now }
{
    let mut looks: [Option<u8>; 256] = [None; 256];
    'states: for (q, byte) in states.iter().enumerate() {
        let class = usize::from(class_of(map, q));
        let look = *byte / 2;
        match looks[class] {
            None => {
                looks[class] = Some(look);
            }
            Some(held) => {
                if held != look {
                    return false;
                }
            }
        }
    }
    true
}

// Some record that starts with a key, by its number, goes to a target joined to this one.
fn reaches(section: &[u8], width: usize, wanted: u32, map: &[u8], target: usize) -> bool
    requires { (3 ≤ width) × (ascend (records width section.now) ≡ true) }
    ensures { ByKey width wanted result (λ k. any (joins map.now target) (targets (records width section.now) k)) }
{
    let found = table_find::equal_range(section, width, wanted);
    let class = class_of(map, target);
    'records: for fields in found.chunks_exact(width) {
        if is_in(map, class, usize::from(fields[width - 1])) {
            return true;
        }
    }
    false
}

// (iv) for a live record (p, r, s, p'), a state q that is joined to p, and a stack state u, by the class of s.
fn return_matched(
    section: &[u8],
    words: &[u64],
    map: &[u8],
    fields: &[u8],
    under: u8,
    q: usize,
    u: usize,
) -> bool
    requires section_value { (ascend (records 4 section.now) ≡ true) × (length fields.now ≡ 4) × (q < 256) × (u < 256) × (under ≡ class_of map.now (get_or fields.now 2 0)) }
    requires fields_value { (has words.now (get_or fields.now 0 0) (get_or fields.now 2 0) ≡ true) × (joins map.now (get_or fields.now 0 0) q ≡ true) }
    ensures { result
        ≡ return_matched words.now (records 4 section.now) map.now (get_or fields.now 0 0)
        (get_or fields.now 1 0) (get_or fields.now 2 0) (get_or fields.now 3 0) q u }
{
    if !is_in(map, under, u) {
        return true;
    }
    if !has_top(words, q, u) {
        return true;
    }
    let wanted = table_find::return_key(q as u8, fields[1], u as u8);
    reaches(section, 4, wanted, map, usize::from(fields[3]))
}

// .. and every stack state.
fn return_met(section: &[u8], words: &[u64], map: &[u8], fields: &[u8], q: usize) -> bool
    requires lent { Lent 4 section.now (length map.now) × (length fields.now ≡ 4) × (q < 256) }
    requires fields_value { (has words.now (get_or fields.now 0 0) (get_or fields.now 2 0) ≡ true) × (joins map.now (get_or fields.now 0 0) q ≡ true) }
    ensures { result ≡ return_met words.now (records 4 section.now) (length map.now) map.now fields.now q }
{
    let under = class_of(map, usize::from(fields[2]));
    'states: for u in 0..map.len() {
        if !return_matched(section, words, map, fields, under, q, u) {
            return false;
        }
    }
    true
}

// (ii) to (iv) for a record that is kept, and a state q that is joined to its first: a move or a return is matched.
fn record_matched(
    section: &[u8],
    width: usize,
    words: &[u64],
    map: &[u8],
    fields: &[u8],
    q: usize,
) -> bool
    requires lent { Lent width section.now (length map.now) × (length fields.now ≡ width) × (kept words.now fields.now ≡ true) }
    requires q_value { (joins map.now (get_or fields.now 0 0) q ≡ true) × (q < 256) }
    ensures { result ≡ record_matched width words.now (records width section.now) (length map.now) map.now fields.now q }
{
    if width == 3 {
        let wanted = table_find::move_key(q as u8, fields[1]);
        return reaches(section, width, wanted, map, usize::from(fields[2]));
    }
    return_met(section, words, map, fields, q)
}

// .. and every state: a dead return asks nothing, and nothing is asked of a state of another class.
fn record_met(section: &[u8], width: usize, words: &[u64], map: &[u8], fields: &[u8]) -> bool
    requires { Lent width section.now (length map.now) × (length fields.now ≡ width) }
    ensures { result ≡ record_met width words.now (records width section.now) (length map.now) map.now fields.now }
{
    if !keeps(words, fields) {
        return true;
    }
    let class = class_of(map, usize::from(fields[0]));
    'states: for q in 0..map.len() {
        if is_in(map, class, q) {
            if !record_matched(section, width, words, map, fields, q) {
                return false;
            }
        }
    }
    true
}

// (ii) to (iv) "each internal or call move of one is matched by the other to a joined target", and "the same for returns": every record.
pub fn records_matched(section: &[u8], width: usize, words: &[u64], map: &[u8]) -> bool
    requires { Lent width section.now (length map.now) }
    ensures { result ≡ records_matched width words.now (records width section.now) (length map.now) map.now }
{
    'records: for fields in section.chunks_exact(width) {
        if !record_met(section, width, words, map, fields) {
            return false;
        }
    }
    true
}

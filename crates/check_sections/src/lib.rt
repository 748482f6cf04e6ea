// The conditions (ii) to (iv) for a section of many records, by words that cover others.
//
// A room has a word for each symbol and each class of targets, by the least state of the class. A move has its state there as a bit, a return its stack state;
// the moves of all states are in one room, the returns of each state in a room of their own. A record is matched where its word covers what it asks for: a move
// the states that are joined to its own, a return, of a state q that is joined to its own, the tops of q that are joined to its stack state.
#![tactic(auto)]

ghost use Rattle.std.specs.Prelude.{◌≡◌, ◌<◌, ◌≤◌, length, get_or, take, eqb};
ghost use Rattle.std.specs.Int.Bits.{bit_or};
ghost use Rattle.lists.specs.Lists.{all, filter};
ghost use Rattle.lists.specs.Bits.{has_bit};
ghost use Rattle.table_spec.specs.File.{records};
ghost use Rattle.check_matching.specs.Matching.{kept, records_matched, Lent};
ghost use Rattle.check_sections.specs.Rooms.{Classed, Joined, place_of, bit_of, met_by, gained, cleared, Placed, Lies, Room, Empty};

use bits::{bit, has_bit, next_state};
use check_matching::keeps;

// The word of all possible states.
const EVERY: u64 = 1099511627775;

// The states of each class.
fn class_words(map: &[u8]) -> [u64; 256]
    requires { length map.now ≤ 40 }
    ensures { Classed map.now result }
{
    let mut words = [0u64; 256];
    'states: for (q, class) in map.iter().enumerate() {
        words[usize::from(*class)] |= bit(q);
    }
    words
}

// The states that are joined to each state.
fn joined_words(map: &[u8]) -> [u64; 40]
    requires { length map.now ≤ 40 }
    ensures { Joined map.now result }
{
    let words = class_words(map);
    let mut joined = [0u64; 40];
    'states: for (q, class) in map.iter().enumerate() {
        joined[q] = words[usize::from(*class)];
    }
    joined
}

// Where a record stands in a room of 64 symbols and 40 classes of targets.
fn place_of(fields: &[u8], joined: &[u64; 40]) -> usize
    requires { Placed joined.now fields.now }
    ensures { (result ≡ place_of joined.now fields.now) × (result < 2560) }
{
    let target = usize::from(fields[fields.len() - 1]);
    usize::from(fields[1]) * 40 + next_state(joined[target]) as usize
}

// The state of a move, the stack state of a return: its bit there, and what it asks for is joined to it.
fn bit_of(fields: &[u8]) -> usize
    requires { (3 ≤ length fields.now) × (length fields.now ≤ 4) }
    ensures { result ≡ bit_of fields.now }
{
    if fields.len() < 4 {
        return usize::from(fields[0]);
    }
    usize::from(fields[2])
}

// Word q, 0 past the end.
fn word_at(words: &[u64], q: usize) -> u64
    ensures { result ≡ get_or words.now q 0 }
{
    words.get(q).copied().unwrap_or(0)
}

// A record of these states has its bit in the room.
fn put(fields: &[u8], joined: &[u64; 40], own: u64, room: &mut [u64; 2560])
    requires { Placed joined.now fields.now }
    ensures { room.new ≡ gained joined.now own fields.now room.old }
{
    if has_bit(own, usize::from(fields[0])) {
        let place = place_of(fields, joined);
        room[place] |= bit(bit_of(fields));
    }
}

// Its word is cleared.
fn clear(fields: &[u8], joined: &[u64; 40], own: u64, room: &mut [u64; 2560])
    requires { Placed joined.now fields.now }
    ensures { room.new ≡ cleared joined.now own fields.now room.old }
{
    if has_bit(own, usize::from(fields[0])) {
        let place = place_of(fields, joined);
        room[place] = 0;
    }
}

// The room of these states.
fn note(section: &[u8], width: usize, joined: &[u64; 40], own: u64, room: &mut [u64; 2560])
    requires { Lies width section.now joined.now × Empty room.old }
    ensures { Room (records width section.now) joined.now own room.new }
{
    'records: for fields in section.chunks_exact(width) {
        put(fields, joined, own, room);
    }
}

// An empty room of it again.
fn wipe(section: &[u8], width: usize, joined: &[u64; 40], own: u64, room: &mut [u64; 2560])
    requires { Lies width section.now joined.now × Room (records width section.now) joined.now own room.old }
    ensures { Empty room.new }
{
    'records: for fields in section.chunks_exact(width) {
        clear(fields, joined, own, room);
    }
}

// Every state of the one word is in the other.
fn covers(word: u64, part: u64) -> bool
    ensures { result ≡ eqb (bit_or word part) word }
{
    (word | part) == word
}

// A record is matched by a room and the tops of which a return asks some. One of other states asks nothing, nor does a dead return.
fn record_met(
    fields: &[u8],
    words: &[u64],
    joined: &[u64; 40],
    askers: u64,
    tops: u64,
    room: &[u64; 2560],
) -> bool
    requires { Placed joined.now fields.now }
    ensures { result ≡ met_by words.now joined.now askers tops room.now fields.now }
{
    if !has_bit(askers, usize::from(fields[0])) {
        return true;
    }
    if !keeps(words, fields) {
        return true;
    }
    let word = room[place_of(fields, joined)];
    let asked = joined[bit_of(fields)] & tops;
    covers(word, asked)
}

// .. every record.
fn met(
    section: &[u8],
    width: usize,
    words: &[u64],
    joined: &[u64; 40],
    askers: u64,
    tops: u64,
    room: &[u64; 2560],
) -> bool
    requires { Lies width section.now joined.now }
    ensures { result ≡ all (met_by words.now joined.now askers tops room.now) (records width section.now) }
{
    'records: for fields in section.chunks_exact(width) {
        if !record_met(fields, words, joined, askers, tops, room) {
            return false;
        }
    }
    true
}

// (iv) "the same for returns": every state that has to match them.
fn returns_matched(
    section: &[u8],
    words: &[u64],
    map: &[u8],
    joined: &[u64; 40],
    room: &mut [u64; 2560],
) -> bool
    requires { Lent 4 section.now (length map.now) × Joined map.now joined.now × Empty room.old }
    ensures { result ≡ records_matched 4 words.now (records 4 section.now) (length map.now) map.now }
{
    'states: for q in 0..map.len() {
        let own = bit(q);
        let askers = joined[q];
        let tops = word_at(words, q);
        note(section, 4, joined, own, room);
        if !met(section, 4, words, joined, askers, tops, room) {
            return false;
        }
        wipe(section, 4, joined, own, room);
    }
    true
}

// (ii) to (iv) "each internal or call move of one is matched by the other to a joined target", and "the same for returns": record by record where they
// are few, else by rooms. Moves ask nothing of tops.
pub fn records_matched(section: &[u8], width: usize, words: &[u64], map: &[u8]) -> bool
    requires { Lent width section.now (length map.now) }
    ensures { result ≡ records_matched width words.now (records width section.now) (length map.now) map.now }
{
    if section.len() <= 32 * width {
        return check_matching::records_matched(section, width, words, map);
    }
    let joined = joined_words(map);
    let mut room = [0u64; 2560];
    if width == 4 {
        return returns_matched(section, words, map, &joined, &mut room);
    }
    note(section, 3, &joined, EVERY, &mut room);
    met(section, 3, words, &joined, EVERY, EVERY, &room)
}

// The returns that are live, one after the other; how many bytes they take.
fn filter_live(section: &[u8], words: &[u64], live: &mut [u8; 16384]) -> usize
    requires { (length (records 4 section.now) ≤ 4096) × (length live.old ≡ 16384) }
    ensures { (result ≤ length live.new) × (records 4 (take result live.new) ≡ filter (kept words.now) (records 4 section.now)) }
{
    let mut n: usize = 0;
    'records: for fields in section.chunks_exact(4) {
        if keeps(words, fields) {
            live[n..n + 4].copy_from_slice(fields);
            n += 4;
        }
    }
    n
}

// (iv): where there are many returns the dead ones are left out first, for the dead ask nothing.
pub fn live_matched(section: &[u8], words: &[u64], map: &[u8]) -> bool
    requires { Lent 4 section.now (length map.now) }
    ensures { result ≡ records_matched 4 words.now (records 4 section.now) (length map.now) map.now }
{
    if section.len() <= 128 {
        return records_matched(section, 4, words, map);
    }
    let mut live = [0u8; 16384];
    let n = filter_live(section, words, &mut live);
    records_matched(&live[..n], 4, words, map)
}

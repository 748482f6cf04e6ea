// The marks of a section's records: for each class one pass over the records of its states, in file order.
//
// An image that is met is stamped in a room that has a place for each symbol and two classes. Each pass has a stamp of its own, so the room is cleared
// once.
#![tactic(auto)]

ghost use Rattle.std.specs.Prelude.{◌≡◌, ◌+◌, ◌-◌, ◌<◌, ◌≤◌, length};
ghost use Rattle.lists.specs.Lists.{over};
ghost use Rattle.table_spec.specs.File.{records};
ghost use Rattle.check_matching.specs.Matching.{kept};
ghost use Rattle.records_spec.specs.Fates.{section_fates, having};
ghost use Rattle.records_fates.specs.Marks.{place_of, Placed, Stamped, UpTo, records_in, Fitting, Ends, ClassMarked};

use check_matching::keeps;
use check_numbering::{class_at, class_count};

// The place of a record's image in the room of its class: 64 symbols, 40 classes, 40 classes.
fn place_of(fields: &[u8], map: &[u8]) -> usize
    requires { Placed map.now fields.now }
    ensures { (result ≡ place_of map.now fields.now) × (result < 102400) }
{
    let last = fields.len() - 1;
    let under = usize::from(class_at(map, fields[2]));
    let to = usize::from(class_at(map, fields[last]));
    (usize::from(fields[1]) * 40 + under) * 40 + to
}

// "0 kept, 1 folded, 2 dead": an image that is met first is stamped, and a dead return stamps nothing.
fn mark_of(fields: &[u8], words: &[u64], map: &[u8], stamp: u8, room: &mut [u8; 102400]) -> u8
    requires { Placed map.now fields.now }
    ensures { Stamped words.now map.now stamp fields.now room.old result room.new }
{
    if !keeps(words, fields) {
        return 2;
    }
    let place = place_of(fields, map);
    if room[place] == stamp {
        return 1;
    }
    room[place] = stamp;
    0
}

// For each state the index after its last record, 0 where it has none.
fn ends_of(section: &[u8], width: usize, map: &[u8]) -> [usize; 40]
    requires { Fitting width section.now map.now }
    ensures { Ends width section.now result }
{
    let mut ends = [0usize; 40];
    let n = section.len() / width;
    'records: for i in 0..n {
        let state = usize::from(section[i * width]);
        ends[state] = i + 1;
    }
    ends
}

// The marks of the records of one class's states. Records stand by their states, so those of a state of another class are left at once.
fn mark_class(
    width: usize,
    section: &[u8],
    words: &[u64],
    map: &[u8],
    ends: &[usize; 40],
    class: usize,
    stamp: u8,
    room: &mut [u8; 102400],
    out: &mut [u8],
)
    requires fitting { Fitting width section.now map.now × Ends width section.now ends.now × (records_in width section.now ≤ length out.old) }
    requires stamp_nonzero { (0 < stamp) × UpTo (stamp - 1) room.old }
    ensures { ClassMarked width section.now words.now map.now class out.old out.new × UpTo stamp room.new }
{
    let n = section.len() / width;
    let mut i: usize = 0;
    // not a `for`: the index leaps over the records of another class
    'records: while i < n {
        let at = i * width;
        let next = at + width;
        let state = section[at];
        if usize::from(class_at(map, state)) == class {
            out[i] = mark_of(&section[at..next], words, map, stamp, room);
            i += 1;
        } else {
            i = ends[usize::from(state)];
        }
    }
}

// The marks of a section's records, by a stamp for each class after the first.
pub fn mark_section(
    width: usize,
    section: &[u8],
    words: &[u64],
    map: &[u8],
    first: u8,
    room: &mut [u8; 102400],
    out: &mut [u8],
)
    requires { Fitting width section.now map.now × (records_in width section.now ≤ length out.old) × (first ≤ 80) × UpTo first room.old }
    ensures { (out.new ≡ over (section_fates (kept words.now) map.now (records width section.now)) out.old)
        × UpTo (first + 40) room.new }
{
    let ends = ends_of(section, width, map);
    let classes = class_count(map);
    let mut stamp = first;
    'classes: for class in 0..classes {
        stamp += 1;
        mark_class(width, section, words, map, &ends, class, stamp, room, out);
    }
}

// How many of the marks are this one.
pub fn count_of(marks: &[u8], mark: u8) -> usize
    ensures { result ≡ having mark marks.now }
{
    marks.iter().filter(|other| **other == mark).count()
}

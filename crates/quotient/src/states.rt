// The state bytes of the classes.
ghost use Rattle.std.specs.Prelude.{◌≡◌, ◌+◌, ◌*◌, ◌<◌, ◌≤◌, length};
ghost use Rattle.table_spec.specs.File.{of_states};
ghost use Rattle.lists.specs.Lists.{over};
ghost use Rattle.quotient_spec.specs.Quotient.{member_has, class_mark, class_byte};
ghost use Rattle.quotient.specs.Classes.{flagged, class_bytes};

use check_numbering::class_of;

// Some member of a class has a flag in its state byte: 1 "for initial", 2 "for accepting".
fn member_has(states: &[u8], map: &[u8], class: u8, flag: u8) -> bool
    requires { 0 < flag }
    ensures { result ≡ member_has (flagged flag) (of_states states.now) map.now class }
{
    'states: for (q, byte) in states.iter().enumerate() {
        let byte = *byte;
        if class_of(map, q) == class {
            if byte / flag % 2 == 1 {
                return true;
            }
        }
    }
    false
}

// "the members' mark": the first one's; 0 where there is none.
fn member_mark(states: &[u8], map: &[u8], class: u8) -> u8
    ensures { result ≡ class_mark (of_states states.now) map.now class }
{
    'states: for (q, byte) in states.iter().enumerate() {
        if class_of(map, q) == class {
            return *byte / 4;
        }
    }
    0
}

// "initial or accepting if a member is", and the members' mark, "times 4"
fn class_byte(states: &[u8], map: &[u8], class: u8) -> u8
    ensures { result ≡ class_byte (of_states states.now) map.now class }
{
    let initial = u8::from(member_has(states, map, class, 1));
    let accepting = u8::from(member_has(states, map, class, 2));
    let mark = member_mark(states, map, class);
    initial + 2 * accepting + 4 * mark
}

// "one state a class"
pub fn put_states(states: &[u8], map: &[u8], classes: usize, out: &mut [u8])
    requires { (classes ≤ 256) × (classes ≤ length out.old) }
    ensures { out.new ≡ over (class_bytes (of_states states.now) map.now classes) out.old }
{
    'classes: for c in 0..classes {
        out[c] = class_byte(states, map, c as u8);
    }
}

// The counters of the clauses, as they were before a guess.
#![tactic(auto)]

ghost use Rattle.std.specs.Prelude.{◌≡◌, ◌≤◌, length};
ghost use Rattle.sat_counters.specs.Counters.{Indexed};
ghost use Rattle.sat_counters.specs.Earlier.{CountersBefore};
ghost use Rattle.sat_restore.specs.Restoring.{TrailMark, Sized};

use sat_counters::{false_literal, increment};

// Gives the clauses the weights back that they lost by the trail's variables from `mark` up to `base`. The trail has `count` variables.
fn recount(
    list: &[u16],
    firsts: &[u16; 1561],
    clauses: &[u16],
    counters: &mut [u32],
    values: &[u8],
    trail: &[u16],
    mark: usize,
    base: usize,
    count: usize,
)
    requires indexed { Indexed list.now firsts.now clauses.now × Sized clauses.now counters.old }
    requires trail_mark { TrailMark list.now values.now trail.now mark base count × CountersBefore list.now values.now trail.now base count counters.old }
    ensures { CountersBefore list.now values.now trail.now mark count counters.new }
{
    'trail: for i in (mark..base).rev() {
        let l = false_literal(values, trail[i]);
        let places = &clauses[usize::from(firsts[l])..usize::from(firsts[l + 1])];
        increment(places, l as u16, counters);
    }
}

// The counters before the guess at `mark`: those that were saved before the variables from `base` on, and back from there. They are saved too.
pub fn restore(
    list: &[u16],
    firsts: &[u16; 1561],
    clauses: &[u16],
    counters: &mut [u32],
    saved: &mut [u32],
    values: &[u8],
    trail: &[u16],
    mark: usize,
    base: usize,
    count: usize,
)
    requires indexed { Indexed list.now firsts.now clauses.now × Sized clauses.now counters.old × (length saved.old ≡ length counters.old) }
    requires trail_mark { TrailMark list.now values.now trail.now mark base count × CountersBefore list.now values.now trail.now base count saved.old }
    ensures { CountersBefore list.now values.now trail.now mark count counters.new × (saved.new ≡ counters.new) }
{
    counters.copy_from_slice(saved);
    if mark == base {
        return;
    }
    recount(
        list, firsts, clauses, counters, values, trail, mark, base, count,
    );
    saved.copy_from_slice(counters);
}

// Clauses counted and written, one after the other.
ghost use Rattle.std.specs.Prelude.{◌≡◌, [], ◌∷◌, ◌&&◌, ◌+◌, ◌^◌, ◌<◌, ◌≤◌, length, leb};
ghost use Rattle.lists.specs.Lists.{over};
ghost use Rattle.clauses_emit.specs.Emit.{literals_of, counts_of, state, counted_by, emit};

use super::literals::Literals;
use super::tally::Tally;

// Whether a clause of n literals is written: where it is to be and where it fits.
pub fn writes(tally: Tally, n: usize, room: usize) -> bool
    ensures { result ≡ (tally.write && leb (tally.words + 1 + n) room) }
{
    tally.write && tally.words <= room && n < room - tally.words
}

// What is counted with a clause of n literals more. Nothing changes once there are more words than the list has room for.
pub fn counted(tally: Tally, n: usize, room: usize) -> Tally
    requires { (n ≤ 42) × (room < 2 ^ 63) }
    ensures { counts_of result ≡ counted_by (counts_of tally) n room }
{
    if room < tally.words {
        return tally;
    }
    Tally {
        write: tally.write,
        clauses: tally.clauses + 1,
        words: tally.words + 1 + n,
    }
}

// A clause's first words, "its literal count, then the literals", at the front of the remaining buffer: the count, and the literals collected. Without a
// loop: compiled, one over so few words costs more than it does.
pub fn store(clause: Literals, count: usize, rest: &mut [u16])
    requires { (clause.n ≤ 3) × (clause.n < length rest.old) × (count ≤ 42) }
    ensures { rest.new ≡ over (count ∷ literals_of clause) rest.old }
{
    let n = clause.n;
    rest[0] = count as u16;
    if n == 0 {
        return;
    }
    rest[1] = clause.words[0];
    if n == 1 {
        return;
    }
    rest[2] = clause.words[1];
    if n == 2 {
        return;
    }
    rest[3] = clause.words[2];
}

// One clause, whose literals are all collected: it is counted, and written where it is to be and where it fits.
pub fn put(clause: Literals, tally: Tally, list: &mut [u16]) -> Tally
    requires { clause.n ≤ 3 }
    ensures { state result list.new ≡ emit (literals_of clause ∷ []) (state tally list.old) }
{
    let n = clause.n;
    let room = list.len();
    if !writes(tally, n, room) {
        return counted(tally, n, room);
    }
    let at = tally.words;
    store(clause, n, &mut list[at..]);
    counted(tally, n, room)
}

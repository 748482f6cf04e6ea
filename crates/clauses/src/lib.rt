// The clauses of a table.
#![tactic(auto)]

ghost use Rattle.std.specs.Prelude.{◌≡◌, ◌≤◌, min, length};
ghost use Rattle.lists.specs.Lists.{over};
ghost use Rattle.limits.specs.Limits.{standard, state_most};
ghost use Rattle.table_spec.specs.File.{table_of, of_states};
ghost use Rattle.check_map.specs.Known.{Known};
ghost use Rattle.clauses_spec.specs.Clauses.{clauses_of, ClausesSays};
ghost use Rattle.clauses_spec.specs.Demands.{ListSound};
ghost use Rattle.clauses_emit.specs.Emit.{counts_of, state, emit};
ghost use Rattle.clauses.specs.Whole.{closure_for, is_small, list_for, listed_by};

use clauses_emit::Tally;
use clauses_records::{live_returns, moves};
use clauses_spec::Listed;
use clauses_states::{labels_apart, transitive};
use limits::Limits;
use refusals::Refusal;
use table_spec::Starts;
use table_view::{Section, part};
use tops::Examined;

// Group 2, where the list is to be whole.
fn closure(whole: bool, states: &[u8], tally: Tally, list: &mut [u16]) -> Tally
    requires { length states.now ≤ state_most }
    ensures { state result list.new ≡ emit (closure_for whole (of_states states.now)) (state tally list.old) }
{
    if whole {
        return transitive(states, tally, list);
    }
    tally
}

// "The list, in this order", whole or without group 2: the sections are handed on as parts of the file.
fn all_groups(whole: bool, examined: &Examined<'_>, tally: Tally, list: &mut [u16]) -> Tally
    ensures { state result list.new ≡ emit (list_for whole (table_of examined.now.bytes.now)) (state tally list.old) }
{
    let bytes = examined.bytes;
    let starts = examined.starts;
    let states = part(bytes, starts, Section::States);
    let internals = part(bytes, starts, Section::Internals);
    let calls = part(bytes, starts, Section::Calls);
    let returns = part(bytes, starts, Section::Returns);
    let count = states.len() as u8;
    let first = labels_apart(states, tally, list);
    let second = closure(whole, states, first, list);
    let third = moves(internals, count, second, list);
    let fourth = moves(calls, count, third, list);
    live_returns(returns, &examined.words, count, fourth, list)
}

// Nothing counted yet.
fn nothing(write: bool) -> Tally
    ensures { counts_of result ≡ record { write = write; clauses = 0; words = 0 } }
{
    Tally {
        write,
        clauses: 0,
        words: 0,
    }
}

// The list is measured, and written where it fits.
fn list_measured(whole: bool, examined: &Examined<'_>, list: &mut [u16]) -> Result<Listed, Refusal>
    ensures { record { answer = result; list = list.new }
        ≡ listed_by (list_for whole (table_of examined.now.bytes.now)) list.old }
{
    let measured = all_groups(whole, examined, nothing(false), list);
    if list.len() < measured.words {
        return Err(Refusal::ListLength);
    }
    let written = all_groups(whole, examined, nothing(true), list);
    Ok(Listed {
        clauses: written.clauses,
        words: written.words,
    })
}

// Words at the front of the list.
#[tactic(auto, unfolding(lists::specs::Lists::over))]
fn copy_words(words: &[u16], list: &mut [u16])
    requires { length words.now ≤ length list.old }
    ensures { list.new ≡ over words.now list.old }
{
    list[..words.len()].copy_from_slice(words);
}

// The list is written into a room, in one walk, and from there into the buffer: with 10 the buffer keeps its words. Where the room is too short and the
// buffer is longer, it is measured.
fn list_in(
    whole: bool,
    examined: &Examined<'_>,
    room: &mut [u16],
    list: &mut [u16],
) -> Result<Listed, Refusal>
    requires { length room.old ≤ length list.old }
    ensures { record { answer = result; list = list.new }
        ≡ listed_by (list_for whole (table_of examined.now.bytes.now)) list.old }
{
    let made = all_groups(whole, examined, nothing(true), room);
    let words = made.words;
    if words <= room.len() {
        copy_words(&room[..words], list);
        return Ok(Listed {
            clauses: made.clauses,
            words,
        });
    }
    if room.len() == list.len() {
        return Err(Refusal::ListLength);
    }
    list_measured(whole, examined, list)
}

// Room for N words.
fn no_words<const N: usize>() -> [u16; N]
    ensures { length result ≡ N }
{
    [0u16; N]
}

// Up to 4 states and 3 records of each kind: 512 words are enough for the list. The answer changes only how long the list takes.
#[tactic(auto, unfolding(crate::specs::Whole::is_small))]
fn is_small(examined: &Examined<'_>) -> bool
    ensures { result ≡ is_small examined.now.bytes.now examined.now.starts }
{
    let bytes = examined.bytes;
    let starts = examined.starts;
    part(bytes, starts, Section::States).len() <= 4
        && part(bytes, starts, Section::Internals).len() <= 9
        && part(bytes, starts, Section::Calls).len() <= 9
        && part(bytes, starts, Section::Returns).len() <= 12
}

// The list by as much of a room as the buffer is long.
fn list_by(
    whole: bool,
    examined: &Examined<'_>,
    room: &mut [u16],
    list: &mut [u16],
) -> Result<Listed, Refusal>
    ensures { record { answer = result; list = list.new }
        ≡ listed_by (list_for whole (table_of examined.now.bytes.now)) list.old }
{
    let most = list.len().min(room.len());
    list_in(whole, examined, &mut room[..most], list)
}

// The list, whole or without group 2, of a table that was read and whose tops are known: up to 32,768 words in one walk.
pub fn list_read(whole: bool, examined: &Examined<'_>, list: &mut [u16]) -> Result<Listed, Refusal>
    ensures { record { answer = result; list = list.new }
        ≡ listed_by (list_for whole (table_of examined.now.bytes.now)) list.old }
{
    if is_small(examined) {
        // 512 words take less time to clear
        return list_by(whole, examined, &mut no_words::<512>(), list);
    }
    list_by(whole, examined, &mut no_words::<32768>(), list)
}

// The same of a table that was read and whose tops are known, by its bytes, its starts and these.
pub fn list_known(
    whole: bool,
    table: &[u8],
    starts: Starts,
    tops: &[u64; 40],
    list: &mut [u16],
) -> Result<Listed, Refusal>
    requires { Known table.now starts tops.now }
    ensures { record { answer = result; list = list.new } ≡ listed_by (list_for whole (table_of table.now)) list.old }
{
    list_read(whole, &tops::examined_known(table, starts, tops), list)
}

// The clause list of a table that is read at limits.
pub fn clauses_within(limits: Limits, table: &[u8], list: &mut [u16]) -> Result<Listed, Refusal>
    ensures answers { record { answer = result; list = list.new } ≡ clauses_of limits table.now list.old }
    ensures number { ClausesSays limits table.now list.old result }
    ensures sound { ListSound limits table.now list.new result }
{
    let examined = tops::examine(limits, table)?;
    list_read(true, &examined, list)
}

// The clause list of a table, at the limits of a caller that gives none.
pub fn clauses(table: &[u8], list: &mut [u16]) -> Result<Listed, Refusal>
    ensures answers { record { answer = result; list = list.new } ≡ clauses_of standard table.now list.old }
    ensures number { ClausesSays standard table.now list.old result }
    ensures sound { ListSound standard table.now list.new result }
{
    clauses_within(limits::standard(), table, list)
}

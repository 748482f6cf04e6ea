// Reducing a table.
#![tactic(auto)]

ghost use Rattle.std.specs.Prelude.{◌≡◌, ◌≤◌, length};
ghost use Rattle.limits.specs.Limits.{standard};
ghost use Rattle.table_spec.specs.File.{table_of};
ghost use Rattle.table_spec.specs.Language.{count};
ghost use Rattle.check_map.specs.Known.{WhereReadable};
ghost use Rattle.clauses_spec.specs.Clauses.{short_words};
ghost use Rattle.clauses_spec.specs.Maps.{map_of};
ghost use Rattle.reduce_spec.specs.Reduce.{Reduced, tried_of_table, deliver, after_search, reduce_of, ReduceSays};
ghost use Rattle.reduce_spec.specs.Demands.{Promises};
ghost use Rattle.reduce.specs.Held.{MadeBy, HeldFor, ListWritten};
ghost use Rattle.reduce.specs.States.{states_of};

use limits::Limits;
use reduce_map::map_of;
use reduce_spec::Reduction;
use refusals::Refusal;
use sat_decide::Ending;
use table_view::Section;
use tops::Examined;

// The guesses of a search, and whether the budget is spent.
#[derive(Clone, Copy, Debug, PartialEq, Eq)]
struct Made {
    guesses: u64,
    spent: bool,
}

// The end of a search that holds a trial; none where no assignment exists.
fn made_by(ending: Ending) -> Option<Made>
    ensures { MadeBy ending result }
{
    match ending {
        Ending::Found(guesses) => Some(Made {
            guesses,
            spent: false,
        }),
        Ending::Absent(_) => None,
        Ending::Spent(guesses) => Some(Made {
            guesses,
            spent: true,
        }),
    }
}

// Map, check and quotient of the trial that is held: the map is written only once the quotient is. The true values are the joined pairs.
fn deliver_held(
    examined: &Examined<'_>,
    n: u8,
    values: &[u8],
    made: Made,
    ceiling: usize,
    words: usize,
    map: &mut [u8],
    out: &mut [u8],
) -> Result<Reduction, Refusal>
    requires n_within { (n ≤ 40) × (n ≤ length map.old) }
    requires words_of_list { words ≡ length (short_words (table_of examined.now.bytes.now)) }
    requires held_for { HeldFor (table_of examined.now.bytes.now) n values.now }
    ensures { ListWritten examined.now.bytes.now result map.new out.new
        (λ L list. deliver L examined.now.bytes.now list map.old out.old (map_of values.now n) made.guesses ceiling made.spent) }
{
    let classes = map_of(values, n);
    let joined = sat_trial::not_false(values);
    let found = classes.map;
    let count = n as usize;
    let length = quotient::quotient_known(examined, &found[..count], out)?;
    map[..count].copy_from_slice(&found[..count]);
    Ok(Reduction {
        classes: classes.count as usize,
        guesses: made.guesses,
        words,
        length,
        joined,
        ceiling,
        spent: made.spent,
    })
}

// The search over the list that was written, with the classes in place of group 2, and what its end leads to. That no assignment exists does not
// happen: nothing joined is one.
fn solve_listed(
    examined: &Examined<'_>,
    n: u8,
    list: &[u16],
    budget: u64,
    map: &mut [u8],
    out: &mut [u8],
) -> Result<Reduction, Refusal>
    requires n_within { (n ≡ count (table_of examined.now.bytes.now)) × (n ≤ length map.old) }
    requires list_value { list.now ≡ short_words (table_of examined.now.bytes.now) }
    ensures { ListWritten examined.now.bytes.now result map.new out.new
        (λ L list. after_search L examined.now.bytes.now list map.old out.old (tried_of_table examined.now.bytes.now budget)) }
{
    let variables = pairs::pairs_of(n) as usize;
    let mut values = sat_solve::none_set();
    let end = sat_solve::solve(list, n, &mut values[..variables], budget);
    let Some(made) = made_by(end.ending) else {
        return Err(Refusal::NoneExists);
    };
    deliver_held(
        examined,
        n,
        &values[..variables],
        made,
        end.ceiling,
        list.len(),
        map,
        out,
    )
}

// A table that was read and whose tops are known, with room for its map: clauses, and what follows them.
fn reduce_known(
    examined: &Examined<'_>,
    n: u8,
    budget: u64,
    list: &mut [u16],
    map: &mut [u8],
    out: &mut [u8],
) -> Result<Reduction, Refusal>
    requires { (n ≡ count (table_of examined.now.bytes.now)) × (n ≤ length map.old) }
    ensures { WhereReadable examined.now.bytes.now (λ L. ◌≡◌ {A = Reduced}
        (record { answer = result; list = list.new; map = map.new; out = out.new })
        (reduce_of L examined.now.bytes.now budget list.old map.old out.old)) }
{
    let listed = clauses::list_read(false, examined, list)?;
    let words = listed.words;
    solve_listed(examined, n, &list[..words], budget, map, out)
}

// Reduces a table that is read at limits, with at most `budget` guesses: the map to the map buffer, the quotient to the output.
pub fn reduce_within(
    limits: Limits,
    table: &[u8],
    budget: u64,
    list: &mut [u16],
    map: &mut [u8],
    out: &mut [u8],
) -> Result<Reduction, Refusal>
    ensures answers { ◌≡◌ {A = Reduced} (record { answer = result; list = list.new; map = map.new; out = out.new })
        (reduce_of limits table.now budget list.old map.old out.old) }
    ensures number { ReduceSays limits table.now budget list.old map.old out.old result }
    ensures promises { Promises limits table.now budget result map.new out.new }
{
    let examined = tops::examine(limits, table)?;
    let states = table_view::part(table, examined.starts, Section::States);
    let n = states.len();
    if map.len() < n {
        return Err(Refusal::MapRoom);
    }
    reduce_known(&examined, n as u8, budget, list, map, out)
}

// Reduces a table, at the limits of a caller that gives none.
pub fn reduce(
    table: &[u8],
    budget: u64,
    list: &mut [u16],
    map: &mut [u8],
    out: &mut [u8],
) -> Result<Reduction, Refusal>
    ensures answers { ◌≡◌ {A = Reduced} (record { answer = result; list = list.new; map = map.new; out = out.new })
        (reduce_of standard table.now budget list.old map.old out.old) }
    ensures number { ReduceSays standard table.now budget list.old map.old out.old result }
    ensures promises { Promises standard table.now budget result map.new out.new }
{
    reduce_within(limits::standard(), table, budget, list, map, out)
}

// How many states a table has that is readable at the limits; 0 where it is not.
pub fn state_count(limits: Limits, table: &[u8]) -> usize
    ensures few { result ≤ 40 }
    ensures states { result ≡ states_of limits table.now }
{
    let reading = read::read_within(limits, table);
    match reading {
        Ok(starts) => {
            let states = table_view::part(table, starts, Section::States);
            states.len()
        }
        Err(_) => 0,
    }
}

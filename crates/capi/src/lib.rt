// The operations for programs in C: numbers and slices only.
//
// Each function returns the refusal's number, or 0. The answer's values are the first elements of `values` where it has room for all of them.
#![tactic(auto)]

ghost use Rattle.std.specs.Prelude.{◌≡◌, [], ◌∷◌};
ghost use Rattle.limits.specs.Limits.{standard};
ghost use Rattle.table_spec.specs.Reading.{read_of};
ghost use Rattle.tops_spec.specs.Tops.{tops_of};
ghost use Rattle.clauses_spec.specs.Clauses.{clauses_of};
ghost use Rattle.search_spec.specs.Answers.{search_of};
ghost use Rattle.check_spec.specs.Check.{check_of};
ghost use Rattle.quotient_spec.specs.Quotient.{quotient_of};
ghost use Rattle.reduce_spec.specs.Reduce.{reduce_of};
ghost use Rattle.uses_spec.specs.Uses.{uses_of};
ghost use Rattle.choose_spec.specs.Choose.{choice_of};
ghost use Rattle.generate_spec.specs.Loads.{load_of, generate_of};
ghost use Rattle.script_spec.specs.Script.{script_of};
ghost use Rattle.records_spec.specs.Fates.{records_of};
ghost use Rattle.fit_spec.specs.Fit.{fit_of};
ghost use Rattle.season_spec.specs.Seasons.{season_of};
ghost use Rattle.combine_spec.specs.Combine.{combine_of};
ghost use Rattle.combine_spec.specs.declared.How.TheVariants.{Intersection, Union};
ghost use Rattle.capi.specs.Answers.{read_out, tops_out, clauses_out, search_out, check_out, quotient_out, reduce_out, uses_out, choose_out, script_out, records_out, fit_out, season_out};

use combine_spec::How;
use limits::Limits;

// Reads a table. Five values: the starts of symbols, states, internals, calls and returns.
#[unsafe(no_mangle)]
pub extern "C" fn basilvault_read_within(
    states: usize,
    symbols: usize,
    table: &[u8],
    values: &mut [u64],
) -> u32
    ensures answers { record { number = result; buffers = []; values = values.new }
        ≡ read_out values.old (read_of (record { states = states; symbols = symbols }) table.now) }
{
    let limits = Limits { states, symbols };
    let reading = read::read_within(limits, table);
    capi_answers::say(reading, values)
}

// The same at the limits of a caller that gives none.
#[unsafe(no_mangle)]
pub extern "C" fn basilvault_read(table: &[u8], values: &mut [u64]) -> u32
    ensures answers { record { number = result; buffers = []; values = values.new }
        ≡ read_out values.old (read_of standard table.now) }
{
    basilvault_read_within(limits::STATES, limits::SYMBOLS, table, values)
}

// Works out the reachable tops. 41 values: a word for each possible state, then the number of tops found. The words are worked out where they are stored.
#[unsafe(no_mangle)]
pub extern "C" fn basilvault_tops_within(
    states: usize,
    symbols: usize,
    table: &[u8],
    values: &mut [u64],
) -> u32
    ensures answers { record { number = result; buffers = []; values = values.new }
        ≡ tops_out values.old (tops_of (record { states = states; symbols = symbols }) table.now) }
{
    let limits = Limits { states, symbols };
    let reading = read::read_within(limits, table);
    match reading {
        Ok(starts) => {
            if values.len() < 41 {
                return 0;
            }
            let found = tops::tops_read(table, starts, &mut values[..40]);
            values[40] = found as u64;
            0
        }
        Err(refusal) => u32::from(refusal),
    }
}

// The same at the limits of a caller that gives none.
#[unsafe(no_mangle)]
pub extern "C" fn basilvault_tops(table: &[u8], values: &mut [u64]) -> u32
    ensures answers { record { number = result; buffers = []; values = values.new }
        ≡ tops_out values.old (tops_of standard table.now) }
{
    basilvault_tops_within(limits::STATES, limits::SYMBOLS, table, values)
}

// Writes the clause list. Two values: clauses and words.
#[unsafe(no_mangle)]
pub extern "C" fn basilvault_clauses_within(
    states: usize,
    symbols: usize,
    table: &[u8],
    list: &mut [u16],
    values: &mut [u64],
) -> u32
    ensures answers { record { number = result; buffers = list.new ∷ []; values = values.new }
        ≡ clauses_out values.old (clauses_of (record { states = states; symbols = symbols }) table.now list.old) }
{
    let limits = Limits { states, symbols };
    let listed = clauses::clauses_within(limits, table, list);
    capi_answers::say(listed, values)
}

// The same at the limits of a caller that gives none.
#[unsafe(no_mangle)]
pub extern "C" fn basilvault_clauses(table: &[u8], list: &mut [u16], values: &mut [u64]) -> u32
    ensures answers { record { number = result; buffers = list.new ∷ []; values = values.new }
        ≡ clauses_out values.old (clauses_of standard table.now list.old) }
{
    basilvault_clauses_within(limits::STATES, limits::SYMBOLS, table, list, values)
}

// Searches for an assignment. One value: the guesses made.
#[unsafe(no_mangle)]
pub extern "C" fn basilvault_search_within(
    states: usize,
    symbols: usize,
    list: &[u16],
    variables: usize,
    budget: u64,
    answer: &mut [u8],
    values: &mut [u64],
) -> u32
    ensures answers { record { number = result; buffers = answer.new ∷ []; values = values.new }
        ≡ search_out values.old (search_of (record { states = states; symbols = symbols }) list.now variables budget answer.old) }
{
    let limits = Limits { states, symbols };
    let solution = search::search_within(limits, list, variables, budget, answer);
    capi_answers::say(solution, values)
}

// The same at the limits of a caller that gives none.
#[unsafe(no_mangle)]
pub extern "C" fn basilvault_search(
    list: &[u16],
    variables: usize,
    budget: u64,
    answer: &mut [u8],
    values: &mut [u64],
) -> u32
    ensures answers { record { number = result; buffers = answer.new ∷ []; values = values.new }
        ≡ search_out values.old (search_of standard list.now variables budget answer.old) }
{
    basilvault_search_within(
        limits::STATES,
        limits::SYMBOLS,
        list,
        variables,
        budget,
        answer,
        values,
    )
}

// Checks a map. One value: the class count.
#[unsafe(no_mangle)]
pub extern "C" fn basilvault_check_within(
    states: usize,
    symbols: usize,
    table: &[u8],
    map: &[u8],
    values: &mut [u64],
) -> u32
    ensures answers { record { number = result; buffers = []; values = values.new }
        ≡ check_out values.old (check_of (record { states = states; symbols = symbols }) table.now map.now) }
{
    let limits = Limits { states, symbols };
    let checked = check_map::check_within(limits, table, map);
    capi_answers::say(checked, values)
}

// The same at the limits of a caller that gives none.
#[unsafe(no_mangle)]
pub extern "C" fn basilvault_check(table: &[u8], map: &[u8], values: &mut [u64]) -> u32
    ensures answers { record { number = result; buffers = []; values = values.new }
        ≡ check_out values.old (check_of standard table.now map.now) }
{
    basilvault_check_within(limits::STATES, limits::SYMBOLS, table, map, values)
}

// Writes the quotient under a map. One value: its length.
#[unsafe(no_mangle)]
pub extern "C" fn basilvault_quotient_within(
    states: usize,
    symbols: usize,
    table: &[u8],
    map: &[u8],
    out: &mut [u8],
    values: &mut [u64],
) -> u32
    ensures answers { record { number = result; buffers = out.new ∷ []; values = values.new }
        ≡ quotient_out values.old (quotient_of (record { states = states; symbols = symbols }) table.now map.now out.old) }
{
    let limits = Limits { states, symbols };
    let written = quotient::quotient_within(limits, table, map, out);
    capi_answers::say(written, values)
}

// The same at the limits of a caller that gives none.
#[unsafe(no_mangle)]
pub extern "C" fn basilvault_quotient(
    table: &[u8],
    map: &[u8],
    out: &mut [u8],
    values: &mut [u64],
) -> u32
    ensures answers { record { number = result; buffers = out.new ∷ []; values = values.new }
        ≡ quotient_out values.old (quotient_of standard table.now map.now out.old) }
{
    basilvault_quotient_within(limits::STATES, limits::SYMBOLS, table, map, out, values)
}

// Reduces a table. Seven values: classes, guesses, clause words, the quotient's length, joined pairs, the ceiling, and 1 or 0: the budget was spent.
#[unsafe(no_mangle)]
pub extern "C" fn basilvault_reduce_within(
    states: usize,
    symbols: usize,
    table: &[u8],
    budget: u64,
    list: &mut [u16],
    map: &mut [u8],
    out: &mut [u8],
    values: &mut [u64],
) -> u32
    ensures answers { record { number = result; buffers = list.new ∷ map.new ∷ out.new ∷ []; values = values.new }
        ≡ reduce_out values.old
        (reduce_of (record { states = states; symbols = symbols }) table.now budget list.old map.old out.old) }
{
    let limits = Limits { states, symbols };
    let reduction = reduce::reduce_within(limits, table, budget, list, map, out);
    capi_answers::say(reduction, values)
}

// The same at the limits of a caller that gives none.
#[unsafe(no_mangle)]
pub extern "C" fn basilvault_reduce(
    table: &[u8],
    budget: u64,
    list: &mut [u16],
    map: &mut [u8],
    out: &mut [u8],
    values: &mut [u64],
) -> u32
    ensures answers { record { number = result; buffers = list.new ∷ map.new ∷ out.new ∷ []; values = values.new }
        ≡ reduce_out values.old
        (reduce_of standard table.now budget list.old map.old out.old) }
{
    basilvault_reduce_within(
        limits::STATES,
        limits::SYMBOLS,
        table,
        budget,
        list,
        map,
        out,
        values,
    )
}

// Adds up use counts by class. 41 values: a sum for each possible state, then the total.
#[unsafe(no_mangle)]
pub extern "C" fn basilvault_uses_within(
    states: usize,
    symbols: usize,
    table: &[u8],
    map: &[u8],
    lines: &[u8],
    values: &mut [u64],
) -> u32
    ensures answers { record { number = result; buffers = []; values = values.new }
        ≡ uses_out values.old (uses_of (record { states = states; symbols = symbols }) table.now map.now lines.now) }
{
    let limits = Limits { states, symbols };
    let counted = uses::uses_within(limits, table, map, lines);
    capi_answers::say(counted, values)
}

// The same at the limits of a caller that gives none.
#[unsafe(no_mangle)]
pub extern "C" fn basilvault_uses(table: &[u8], map: &[u8], lines: &[u8], values: &mut [u64]) -> u32
    ensures answers { record { number = result; buffers = []; values = values.new }
        ≡ uses_out values.old (uses_of standard table.now map.now lines.now) }
{
    basilvault_uses_within(limits::STATES, limits::SYMBOLS, table, map, lines, values)
}

// Chooses that one of two maps which the check accepts. One value: 1 for the first map, 2 for the second.
#[unsafe(no_mangle)]
pub extern "C" fn basilvault_choose_within(
    states: usize,
    symbols: usize,
    table: &[u8],
    first: &[u8],
    second: &[u8],
    values: &mut [u64],
) -> u32
    ensures answers { record { number = result; buffers = []; values = values.new }
        ≡ choose_out values.old (choice_of (record { states = states; symbols = symbols }) table.now first.now second.now) }
{
    let limits = Limits { states, symbols };
    let choice = choose::decide_within(limits, table, first, second);
    capi_answers::say(choice, values)
}

// The same at the limits of a caller that gives none.
#[unsafe(no_mangle)]
pub extern "C" fn basilvault_choose(
    table: &[u8],
    first: &[u8],
    second: &[u8],
    values: &mut [u64],
) -> u32
    ensures answers { record { number = result; buffers = []; values = values.new }
        ≡ choose_out values.old (choice_of standard table.now first.now second.now) }
{
    basilvault_choose_within(
        limits::STATES,
        limits::SYMBOLS,
        table,
        first,
        second,
        values,
    )
}

// Writes a random table from a seed, where states may be at most `most`. One value: its length.
#[unsafe(no_mangle)]
pub extern "C" fn basilvault_generate_within(
    most: usize,
    symbols: usize,
    seed: u32,
    states: usize,
    internals: usize,
    calls: usize,
    returns: usize,
    density: u32,
    out: &mut [u8],
    values: &mut [u64],
) -> u32
    ensures answers { record { number = result; buffers = out.new ∷ []; values = values.new }
        ≡ quotient_out values.old (generate_of (record { states = most; symbols = symbols }) (load_of seed states internals calls returns density) out.old) }
{
    let limits = Limits {
        states: most,
        symbols,
    };
    let written = generate::generate_within(
        limits, seed, states, internals, calls, returns, density, out,
    );
    capi_answers::say(written, values)
}

// The same at the limits of a caller that gives none.
#[unsafe(no_mangle)]
pub extern "C" fn basilvault_generate(
    seed: u32,
    states: usize,
    internals: usize,
    calls: usize,
    returns: usize,
    density: u32,
    out: &mut [u8],
    values: &mut [u64],
) -> u32
    ensures answers { record { number = result; buffers = out.new ∷ []; values = values.new }
        ≡ quotient_out values.old (generate_of standard (load_of seed states internals calls returns density) out.old) }
{
    basilvault_generate_within(
        limits::STATES,
        limits::SYMBOLS,
        seed,
        states,
        internals,
        calls,
        returns,
        density,
        out,
        values,
    )
}

// Reads a script on a table. One value: 1 yes, 0 no.
#[unsafe(no_mangle)]
pub extern "C" fn basilvault_script_within(
    states: usize,
    symbols: usize,
    table: &[u8],
    script: &[u8],
    values: &mut [u64],
) -> u32
    ensures answers { record { number = result; buffers = []; values = values.new }
        ≡ script_out values.old (script_of (record { states = states; symbols = symbols }) table.now script.now) }
{
    let limits = Limits { states, symbols };
    let read = script::script_within(limits, table, script);
    capi_answers::say(read, values)
}

// The same at the limits of a caller that gives none.
#[unsafe(no_mangle)]
pub extern "C" fn basilvault_script(table: &[u8], script: &[u8], values: &mut [u64]) -> u32
    ensures answers { record { number = result; buffers = []; values = values.new }
        ≡ script_out values.old (script_of standard table.now script.now) }
{
    basilvault_script_within(limits::STATES, limits::SYMBOLS, table, script, values)
}

// Tells where the records went under a map. Four values: records, and those of them that are kept, folded and dead.
#[unsafe(no_mangle)]
pub extern "C" fn basilvault_records_within(
    states: usize,
    symbols: usize,
    table: &[u8],
    map: &[u8],
    out: &mut [u8],
    values: &mut [u64],
) -> u32
    ensures answers { record { number = result; buffers = out.new ∷ []; values = values.new }
        ≡ records_out values.old (records_of (record { states = states; symbols = symbols }) table.now map.now out.old) }
{
    let limits = Limits { states, symbols };
    let recorded = records::records_within(limits, table, map, out);
    capi_answers::say(recorded, values)
}

// The same at the limits of a caller that gives none.
#[unsafe(no_mangle)]
pub extern "C" fn basilvault_records(
    table: &[u8],
    map: &[u8],
    out: &mut [u8],
    values: &mut [u64],
) -> u32
    ensures answers { record { number = result; buffers = out.new ∷ []; values = values.new }
        ≡ records_out values.old (records_of standard table.now map.now out.old) }
{
    basilvault_records_within(limits::STATES, limits::SYMBOLS, table, map, out, values)
}

// Says whether the second table accepts every word of the first. One value: 1 yes, 0 no.
#[unsafe(no_mangle)]
pub extern "C" fn basilvault_fit(first: &[u8], second: &[u8], values: &mut [u64]) -> u32
    ensures answers { record { number = result; buffers = []; values = values.new }
        ≡ fit_out values.old (fit_of first.now second.now) }
{
    let fitting = fit::fit(first, second);
    capi_answers::say(fitting, values)
}

// Writes the table of the words that both tables accept. One value: its length.
#[unsafe(no_mangle)]
pub extern "C" fn basilvault_intersection_within(
    states: usize,
    symbols: usize,
    first: &[u8],
    second: &[u8],
    out: &mut [u8],
    values: &mut [u64],
) -> u32
    ensures answers { record { number = result; buffers = out.new ∷ []; values = values.new }
        ≡ quotient_out values.old (combine_of (record { states = states; symbols = symbols }) Intersection first.now second.now out.old) }
{
    let limits = Limits { states, symbols };
    let written = combine::combine_within(limits, first, second, How::Intersection, out);
    capi_answers::say(written, values)
}

// The same at the limits of a caller that gives none.
#[unsafe(no_mangle)]
pub extern "C" fn basilvault_intersection(
    first: &[u8],
    second: &[u8],
    out: &mut [u8],
    values: &mut [u64],
) -> u32
    ensures answers { record { number = result; buffers = out.new ∷ []; values = values.new }
        ≡ quotient_out values.old (combine_of standard Intersection first.now second.now out.old) }
{
    basilvault_intersection_within(limits::STATES, limits::SYMBOLS, first, second, out, values)
}

// Writes the table of the words that one of two tables accepts. One value: its length.
#[unsafe(no_mangle)]
pub extern "C" fn basilvault_union_within(
    states: usize,
    symbols: usize,
    first: &[u8],
    second: &[u8],
    out: &mut [u8],
    values: &mut [u64],
) -> u32
    ensures answers { record { number = result; buffers = out.new ∷ []; values = values.new }
        ≡ quotient_out values.old (combine_of (record { states = states; symbols = symbols }) Union first.now second.now out.old) }
{
    let limits = Limits { states, symbols };
    let written = combine::combine_within(limits, first, second, How::Union, out);
    capi_answers::say(written, values)
}

// The same at the limits of a caller that gives none.
#[unsafe(no_mangle)]
pub extern "C" fn basilvault_union(
    first: &[u8],
    second: &[u8],
    out: &mut [u8],
    values: &mut [u64],
) -> u32
    ensures answers { record { number = result; buffers = out.new ∷ []; values = values.new }
        ≡ quotient_out values.old (combine_of standard Union first.now second.now out.old) }
{
    basilvault_union_within(limits::STATES, limits::SYMBOLS, first, second, out, values)
}

// Reduces up to 8 tables back to back with shared guesses. 64 values: for each of 8 tables its refusal's number or 0, classes, guesses, words,
// length, joined pairs, their ceiling, and 1 where its guesses were spent.
#[unsafe(no_mangle)]
pub extern "C" fn basilvault_season_within(
    states: usize,
    symbols: usize,
    tables: &[u8],
    lengths: &[u64],
    guesses: u64,
    list: &mut [u16],
    maps: &mut [u8],
    out: &mut [u8],
    values: &mut [u64],
) -> u32
    ensures answers { record { number = result; buffers = list.new ∷ maps.new ∷ out.new ∷ []; values = values.new }
        ≡ season_out values.old
        (season_of (record { states = states; symbols = symbols }) tables.now lengths.now guesses list.old maps.old out.old) }
{
    let limits = Limits { states, symbols };
    let answer = season::season_within(limits, tables, lengths, guesses, list, maps, out);
    capi_answers::say(answer, values)
}

// The same at the limits of a caller that gives none.
#[unsafe(no_mangle)]
pub extern "C" fn basilvault_season(
    tables: &[u8],
    lengths: &[u64],
    guesses: u64,
    list: &mut [u16],
    maps: &mut [u8],
    out: &mut [u8],
    values: &mut [u64],
) -> u32
    ensures answers { record { number = result; buffers = list.new ∷ maps.new ∷ out.new ∷ []; values = values.new }
        ≡ season_out values.old
        (season_of standard tables.now lengths.now guesses list.old maps.old out.old) }
{
    basilvault_season_within(
        limits::STATES,
        limits::SYMBOLS,
        tables,
        lengths,
        guesses,
        list,
        maps,
        out,
        values,
    )
}

// Reducing the tables of a season, in order, with shared guesses.
#![tactic(auto)]

ghost use Rattle.std.specs.Prelude.{◌≡◌, true, ◌*◌, ◌<◌, ◌^◌, length};
ghost use Rattle.std.proofs.Math.Seq.{paste};
ghost use Rattle.limits.specs.Limits.{standard};
ghost use Rattle.season_spec.specs.Seasons.{lengths_fit, SeasonDone, season_of, SeasonSays};
ghost use Rattle.season_spec.specs.Demands.{SeasonPromises};
ghost use Rattle.season.specs.Turns.{Turned, Ran};

use capi_values::yes_value;
use limits::Limits;
use reduce::state_count;
use refusals::Refusal;

mod lengths;

use lengths::lengths_fit;

// One table's turn: its row of numbers, how many bytes of the maps and of the reduced tables it took, and its guesses.
#[derive(Clone, Copy)]
struct Turn {
    row: [u64; 8],
    states: usize,
    length: usize,
    guesses: u64,
}

// Reduces one table with what is left of the buffers.
fn take_turn(
    limits: Limits,
    table: &[u8],
    budget: u64,
    list: &mut [u16],
    map: &mut [u8],
    out: &mut [u8],
) -> Turn
    ensures { Turned limits table.now budget list.old map.old out.old result list.new map.new out.new }
{
    let answer = reduce::reduce_within(limits, table, budget, list, map, out);
    match answer {
        Ok(reduction) => Turn {
            row: [
                0,
                reduction.classes as u64,
                reduction.guesses,
                reduction.words as u64,
                reduction.length as u64,
                reduction.joined as u64,
                reduction.ceiling as u64,
                yes_value(reduction.spent),
            ],
            states: state_count(limits, table),
            length: reduction.length,
            guesses: reduction.guesses,
        },
        Err(refusal) => Turn {
            row: [u64::from(refusal), 0, 0, 0, 0, 0, 0, 0],
            states: 0,
            length: 0,
            guesses: 0,
        },
    }
}

// Row i of the values.
fn put_row(values: &mut [u64; 64], i: usize, row: [u64; 8])
    requires { (i < 8) × (length values.old ≡ 64) × (length row ≡ 8) }
    ensures { values.new ≡ paste values.old (8 * i) row 8 }
{
    values[8 * i..8 * i + 8].copy_from_slice(&row);
}

// Every table in turn, with its share and what earlier ones left: of the maps and of the output each is lent the part after what the earlier ones took.
fn run(
    limits: Limits,
    tables: &[u8],
    lengths: &[u64],
    share: u64,
    list: &mut [u16],
    maps: &mut [u8],
    out: &mut [u8],
) -> [u64; 64]
    requires { (lengths_fit (length tables.now) lengths.now ≡ true) × (length lengths.now * share < 2 ^ 64) }
    ensures { Ran limits share lengths.now tables.now list.old maps.old out.old result list.new
        maps.new out.new }
{
    let mut values = [0u64; 64];
    let mut saved: u64 = 0;
    let mut at: usize = 0;
    let mut map_at: usize = 0;
    let mut out_at: usize = 0;
    'tables: for (i, length) in lengths.iter().enumerate() {
        let next = at + *length as usize;
        let turn = take_turn(
            limits,
            &tables[at..next],
            share + saved,
            list,
            &mut maps[map_at..],
            &mut out[out_at..],
        );
        let row = turn.row;
        put_row(&mut values, i, row);
        saved = share + saved - turn.guesses;
        map_at += turn.states;
        out_at += turn.length;
        at = next;
    }
    values
}

// Reduces up to 8 tables that stand back to back, read at limits, with so many guesses for all: the maps and the reduced tables back to back; or 39 or
// 34, every buffer then unchanged. The answer has 8 numbers for each of 8 tables: its refusal's number or 0, classes, guesses, words, length, joined pairs,
// their ceiling, and 1 where guesses were spent; zeros past the count.
pub fn season_within(
    limits: Limits,
    tables: &[u8],
    lengths: &[u64],
    guesses: u64,
    list: &mut [u16],
    maps: &mut [u8],
    out: &mut [u8],
) -> Result<[u64; 64], Refusal>
    ensures answers { ◌≡◌ {A = SeasonDone} (record { answer = result; list = list.new; maps = maps.new; out = out.new })
        (season_of limits tables.now lengths.now guesses list.old maps.old out.old) }
    ensures promises { SeasonPromises limits tables.now lengths.now guesses list.old maps.old out.old result
        maps.new out.new }
    ensures number { SeasonSays limits tables.now lengths.now guesses list.old maps.old out.old result }
{
    if !limits::limits_fit(limits) {
        return Err(Refusal::LimitsRange);
    }
    if !lengths_fit(tables.len(), lengths) {
        return Err(Refusal::Lengths);
    }
    let count = lengths.len() as u64;
    Ok(run(limits, tables, lengths, guesses / count, list, maps, out))
}

// Reduces up to 8 tables, at the limits of a caller that gives none.
pub fn season(
    tables: &[u8],
    lengths: &[u64],
    guesses: u64,
    list: &mut [u16],
    maps: &mut [u8],
    out: &mut [u8],
) -> Result<[u64; 64], Refusal>
    ensures answers { ◌≡◌ {A = SeasonDone} (record { answer = result; list = list.new; maps = maps.new; out = out.new })
        (season_of standard tables.now lengths.now guesses list.old maps.old out.old) }
    ensures promises { SeasonPromises standard tables.now lengths.now guesses list.old maps.old out.old result
        maps.new out.new }
    ensures number { SeasonSays standard tables.now lengths.now guesses list.old maps.old out.old result }
{
    season_within(
        limits::standard(),
        tables,
        lengths,
        guesses,
        list,
        maps,
        out,
    )
}

// The product: the records of the pairs, by pair, symbol and, of returns, the pair that was pushed.
ghost use Rattle.std.specs.Prelude.{◌≡◌, [], ◌∷◌, map, ◌+◌, ◌*◌, ◌<◌, ◌≤◌, length};
ghost use Rattle.table_spec.specs.File.{records};
ghost use Rattle.table_find.specs.Keys.{key_from, key};
ghost use Rattle.combine_spec.specs.Walk.{walk};
ghost use Rattle.combine_keys.specs.Adding.{Adds, Collected};
ghost use Rattle.combine_keys.specs.Factors.{Factors, Ready, Blocks, stack_bounds};

use super::push::add_targets;
use table_find::{equal_range, return_key};
use table_index::{block, starts_of};

// Sections of two tables, of records of one width, with how many states each table has and the index of each section.
#[derive(Clone, Copy)]
struct Both<'a> {
    width: usize,
    firsts: usize,
    states: usize,
    first: &'a [u8],
    second: &'a [u8],
    one: &'a [u16; 2561],
    two: &'a [u16; 2561],
    ghost ready: { Ready width firsts states first.now second.now one.now two.now },
}

fn narrow(x: usize) -> u8
    requires { x < 256 }
    ensures { result ≡ x }
{
    x as u8
}

// The moves of a pair by a symbol.
fn add_moves(
    both: Both,
    pair: usize,
    symbol: usize,
    keys: &mut [u32],
    count: usize,
) -> Option<usize>
    requires { (both.width ≡ 3) × (pair < both.firsts * both.states) × (symbol < 64) }
    ensures { Adds (map (key_from (pair * 256 + symbol)) (walk both.entry.states (records 3 both.entry.first.now) (records 3 both.entry.second.now) [] (pair ∷ symbol ∷ [])))
        keys.old count keys.new result }
{
    let by = narrow(symbol);
    let own = block(both.first, 3, both.one, narrow(pair / both.states), by);
    let other = block(both.second, 3, both.two, narrow(pair % both.states), by);
    add_targets(3, own, other, both.states, pair * 256 + symbol, keys, count)
}

// The returns of a pair by a symbol, out of the blocks of the two: over each pair that may have been pushed.
fn add_over(
    first: &[u8],
    second: &[u8],
    states: usize,
    pairs: usize,
    pair: usize,
    symbol: usize,
    keys: &mut [u32],
    count: usize,
) -> Option<usize>
    requires { Blocks states pairs pair symbol first.now second.now }
    ensures { Adds (map (key_from (pair * 256 + symbol)) (walk states (records 4 first.now) (records 4 second.now) (pairs ∷ []) (pair ∷ symbol ∷ [])))
        keys.old count keys.new result }
{
    let p = narrow(pair / states);
    let q = narrow(pair % states);
    let by = narrow(symbol);
    let mut held = count;
    'pushed: for pushed in 0..pairs {
        let own = equal_range(first, 4, return_key(p, by, narrow(pushed / states)));
        let other = equal_range(second, 4, return_key(q, by, narrow(pushed % states)));
        let prefix = (pair * 256 + symbol) * 256 + pushed;
        held = add_targets(4, own, other, states, prefix, keys, held)?;
    }
    Some(held)
}

// The returns of a pair by a symbol.
fn add_returns(
    both: Both,
    pair: usize,
    symbol: usize,
    keys: &mut [u32],
    count: usize,
) -> Option<usize>
    requires { (both.width ≡ 4) × (pair < both.firsts * both.states) × (symbol < 64) }
    ensures { Adds (map (key_from (pair * 256 + symbol)) (walk both.entry.states (records 4 both.entry.first.now) (records 4 both.entry.second.now) (both.entry.firsts * both.entry.states ∷ []) (pair ∷ symbol ∷ [])))
        keys.old count keys.new result }
{
    let by = narrow(symbol);
    let own = block(both.first, 4, both.one, narrow(pair / both.states), by);
    let other = block(both.second, 4, both.two, narrow(pair % both.states), by);
    if own.is_empty() {
        return Some(count);
    }
    if other.is_empty() {
        return Some(count);
    }
    add_over(
        own,
        other,
        both.states,
        both.firsts * both.states,
        pair,
        symbol,
        keys,
        count,
    )
}

// The records of a pair by a symbol.
fn add_symbol(
    both: Both,
    pair: usize,
    symbol: usize,
    keys: &mut [u32],
    count: usize,
) -> Option<usize>
    requires { (pair < both.firsts * both.states) × (symbol < 64) }
    ensures { Adds (map (key_from (pair * 256 + symbol)) (walk both.entry.states (records both.entry.width both.entry.first.now) (records both.entry.width both.entry.second.now) (stack_bounds both.entry.width (both.entry.firsts * both.entry.states)) (pair ∷ symbol ∷ [])))
        keys.old count keys.new result }
{
    if both.width == 3 {
        return add_moves(both, pair, symbol, keys, count);
    }
    add_returns(both, pair, symbol, keys, count)
}

// The records of a pair.
fn add_pair(
    both: Both,
    symbols: usize,
    pair: usize,
    keys: &mut [u32],
    count: usize,
) -> Option<usize>
    requires { (pair < both.firsts * both.states) × (symbols ≤ 64) }
    ensures { Adds (map (key_from pair) (walk both.entry.states (records both.entry.width both.entry.first.now) (records both.entry.width both.entry.second.now) (symbols ∷ stack_bounds both.entry.width (both.entry.firsts * both.entry.states)) (pair ∷ [])))
        keys.old count keys.new result }
{
    let mut held = count;
    'symbols: for symbol in 0..symbols {
        held = add_symbol(both, pair, symbol, keys, held)?;
    }
    Some(held)
}

// The records of a section of the product; how many there are.
pub fn product(
    width: usize,
    firsts: usize,
    states: usize,
    symbols: usize,
    first: &[u8],
    second: &[u8],
    keys: &mut [u32],
) -> Option<usize>
    requires { Factors width firsts states first.now second.now × (symbols ≤ 64) }
    ensures { Collected (length keys.old)
        (map key (walk states (records width first.now) (records width second.now) (firsts * states ∷ symbols ∷ stack_bounds width (firsts * states)) []))
        keys.new result }
{
    let one = starts_of(first, width, firsts);
    let two = starts_of(second, width, states);
    let both = Both {
        width,
        firsts,
        states,
        first,
        second,
        one: &one,
        two: &two,
    };
    let mut held: usize = 0;
    'pairs: for pair in 0..firsts * states {
        held = add_pair(both, symbols, pair, keys, held)?;
    }
    Some(held)
}

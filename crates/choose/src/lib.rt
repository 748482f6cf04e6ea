// Two maps on the desk: that one of them which the check accepts.
#![tactic(auto)]

ghost use Rattle.std.specs.Prelude.{◌≡◌, true, false, leb};
ghost use Rattle.choose_spec.specs.declared.Which.TheVariants.{First, Second};
ghost use Rattle.table_spec.specs.Maps.{classes};
ghost use Rattle.limits.specs.Limits.{standard};
ghost use Rattle.check_map.specs.Known.{WhereReadable};
ghost use Rattle.choose_spec.specs.Choose.{which_of, choose_number, choice_of, slice_of, choose_of, DecideSays};
ghost use Rattle.choose_spec.specs.Demands.{NumberTells, NeitherPasses, ZeroTells, HandedBack};

use choose_spec::Which;
use limits::Limits;
use refusals::Refusal;
use tops::Examined;

// Which of two maps of a table that was read and whose tops are known, at any limits at which it is readable.
fn which_known(examined: &Examined<'_>, first: &[u8], second: &[u8]) -> Option<Which>
    ensures { WhereReadable examined.now.bytes.now (λ L. result ≡ which_of L examined.now.bytes.now first.now second.now) }
{
    let one = check_map::test_map(examined, first);
    let two = check_map::test_map(examined, second);
    match one {
        Err(_) => match two {
            Err(_) => None,
            Ok(_) => Some(Which::Second),
        },
        Ok(_) => match two {
            Err(_) => Some(Which::First),
            Ok(_) => Some(fewer(first, second)),
        },
    }
}

// The map with fewer classes, the first when equal.
fn fewer(first: &[u8], second: &[u8]) -> Which
    ensures { result ≡ (elim (leb (classes first.now) (classes second.now)) [ true ↦ First | false ↦ Second ]) }
{
    if check_numbering::class_count(second) < check_numbering::class_count(first) {
        return Which::Second;
    }
    Which::First
}

// Which map, of a table that is read at limits: it is read and its tops are worked out once for both maps.
pub fn decide_within(
    limits: Limits,
    table: &[u8],
    first: &[u8],
    second: &[u8],
) -> Result<Which, Refusal>
    ensures answers { result ≡ choice_of limits table.now first.now second.now }
    ensures tells { NumberTells result }
    ensures number { DecideSays limits table.now first.now second.now result }
{
    let examined = tops::examine(limits, table)?;
    let which = which_known(&examined, first, second);
    match which {
        Some(which) => Ok(which),
        None => Err(Refusal::NeitherMap),
    }
}

// Hands back that one of two lent maps which the check accepts, of a table that is read at limits: the one with fewer classes where both pass, the
// first when equal; with any refusal the empty part of the first.
pub fn choose_within<'a>(
    limits: Limits,
    table: &[u8],
    first: &'a [u8],
    second: &'a [u8],
) -> &'a [u8]
    ensures answers { slice_of result ≡ choose_of limits table.now (slice_of first.entry) (slice_of second.entry) }
    ensures chosen { HandedBack limits table.now first.entry second.entry result }
{
    let choice = decide_within(limits, table, first, second);
    match choice {
        Err(_) => &first[..0],
        Ok(which) => match which {
            Which::First => first,
            Which::Second => second,
        },
    }
}

// The refusal's number, 0 when a map is handed back.
pub fn choose_number_within(limits: Limits, table: &[u8], first: &[u8], second: &[u8]) -> u8
    ensures answers { result ≡ choose_number limits table.now first.now second.now }
    ensures neither { NeitherPasses limits table.now first.now second.now result }
    ensures tells { ZeroTells limits table.now (slice_of first.entry) (slice_of second.entry) result }
{
    let choice = decide_within(limits, table, first, second);
    match choice {
        Ok(_) => 0,
        Err(refusal) => refusal.number(),
    }
}

// Which map, at the limits of a caller that gives none.
pub fn decide(table: &[u8], first: &[u8], second: &[u8]) -> Result<Which, Refusal>
    ensures answers { result ≡ choice_of standard table.now first.now second.now }
    ensures tells { NumberTells result }
    ensures number { DecideSays standard table.now first.now second.now result }
{
    decide_within(limits::standard(), table, first, second)
}

// Hands back one of two lent maps, at the limits of a caller that gives none.
pub fn choose<'a>(table: &[u8], first: &'a [u8], second: &'a [u8]) -> &'a [u8]
    ensures answers { slice_of result ≡ choose_of standard table.now (slice_of first.entry) (slice_of second.entry) }
    ensures chosen { HandedBack standard table.now first.entry second.entry result }
{
    choose_within(limits::standard(), table, first, second)
}

// The refusal's number, at the limits of a caller that gives none.
pub fn choose_number(table: &[u8], first: &[u8], second: &[u8]) -> u8
    ensures answers { result ≡ choose_number standard table.now first.now second.now }
    ensures neither { NeitherPasses standard table.now first.now second.now result }
    ensures tells { ZeroTells standard table.now (slice_of first.entry) (slice_of second.entry) result }
{
    choose_number_within(limits::standard(), table, first, second)
}

// A load that can be made again: a random table from a seed.
#![tactic(auto)]

ghost use Rattle.std.specs.Prelude.{◌≡◌, ◌+◌};
ghost use Rattle.limits.specs.Limits.{standard};
ghost use Rattle.generate_spec.specs.Loads.{load_of, sizes_fit, generate_of, GenerateSays};
ghost use Rattle.generate_spec.specs.Demands.{Promises};
ghost use Rattle.generate.specs.Counts.{Counts, drawn_for};

use draws::collect;
use limits::Limits;
use refusals::Refusal;

mod draws;
mod write;

use write::write_keys;

// 35: the counts and the density are within their limits, the counts added without wrapping.
fn sizes_fit(
    limits: Limits,
    states: usize,
    internals: usize,
    calls: usize,
    returns: usize,
    density: u32,
) -> bool
    ensures { result ≡ sizes_fit limits states (internals + (calls + returns)) density }
{
    if states < 1 {
        return false;
    }
    if limits.states < states {
        return false;
    }
    if limits.symbols < internals {
        return false;
    }
    if limits.symbols - internals < calls {
        return false;
    }
    if limits.symbols - internals - calls < returns {
        return false;
    }
    density <= 65536
}

// The table described, where 39 and 35 do not apply: refused by 36 or 21, or written.
fn write_drawn(
    seed: u32,
    states: usize,
    internals: usize,
    calls: usize,
    returns: usize,
    density: u32,
    out: &mut [u8],
) -> Result<usize, Refusal>
    requires { Counts states (internals + (calls + returns)) }
    ensures { record { answer = result; out = out.new } ≡ drawn_for (load_of seed states internals calls returns density) out.old }
{
    let mut internal_keys = [0u32; 1024];
    let Some(i) = collect(3, states, 0, internals, density, seed, &mut internal_keys) else {
        return Err(Refusal::LoadRecords);
    };
    let mut call_keys = [0u32; 1024];
    let Some(c) = collect(3, states, internals, calls, density, i.s, &mut call_keys) else {
        return Err(Refusal::LoadRecords);
    };
    let from = internals + calls;
    let mut return_keys = [0u32; 4096];
    let Some(r) = collect(4, states, from, returns, density, c.s, &mut return_keys) else {
        return Err(Refusal::LoadRecords);
    };
    write_keys(
        states,
        internals,
        calls,
        from + returns,
        &internal_keys[..i.count],
        &call_keys[..c.count],
        &return_keys[..r.count],
        out,
    )
}

// Writes a random table from a seed at limits: its length, or the first refusal that applies, the output then unchanged.
pub fn generate_within(
    limits: Limits,
    seed: u32,
    states: usize,
    internals: usize,
    calls: usize,
    returns: usize,
    density: u32,
    out: &mut [u8],
) -> Result<usize, Refusal>
    ensures answers { record { answer = result; out = out.new } ≡ generate_of limits (load_of seed states internals calls returns density) out.old }
    ensures number { GenerateSays limits (load_of seed states internals calls returns density) out.old result }
    ensures promises { Promises limits (load_of seed states internals calls returns density) result out.new }
{
    if !limits::limits_fit(limits) {
        return Err(Refusal::LimitsRange);
    }
    if !sizes_fit(limits, states, internals, calls, returns, density) {
        return Err(Refusal::Load);
    }
    write_drawn(seed, states, internals, calls, returns, density, out)
}

// Writes a random table from a seed, at the limits of a caller that gives none.
pub fn generate(
    seed: u32,
    states: usize,
    internals: usize,
    calls: usize,
    returns: usize,
    density: u32,
    out: &mut [u8],
) -> Result<usize, Refusal>
    ensures answers { record { answer = result; out = out.new } ≡ generate_of standard (load_of seed states internals calls returns density) out.old }
    ensures number { GenerateSays standard (load_of seed states internals calls returns density) out.old result }
    ensures promises { Promises standard (load_of seed states internals calls returns density) result out.new }
{
    generate_within(
        limits::standard(),
        seed,
        states,
        internals,
        calls,
        returns,
        density,
        out,
    )
}

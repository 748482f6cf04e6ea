// Where the second table goes, worked out once: for each state, symbol and popped state its target, or the number past the states.
ghost use Rattle.std.specs.Prelude.{◌≡◌, true, ◌<◌, ◌≤◌};
ghost use Rattle.table_spec.specs.File.{records};
ghost use Rattle.table_spec.specs.Reading.{ascend};
ghost use Rattle.table_find.specs.Keys.{ByKey};
ghost use Rattle.fit_spec.specs.Fit.{after};
ghost use Rattle.fit_rounds.specs.Rows.{Ascends, Nexts, NextMoves, NextReturns};

pub fn narrow(x: usize) -> u8
    requires { x < 256 }
    ensures { result ≡ x }
{
    x as u8
}

// The target of the first record that starts with a key, by its number.
fn target_of(section: &[u8], width: usize, wanted: u32, sink: u8) -> u8
    requires { (3 ≤ width) × (ascend (records width section.now) ≡ true) }
    ensures { ByKey width wanted result (after (records width section.now) sink) }
{
    let found = table_find::equal_range(section, width, wanted);
    if found.len() < width {
        return sink;
    }
    found[width - 1]
}

// Of the moves: by 32 times the state plus the symbol.
pub fn next_moves(section: &[u8], sink: u8) -> [u8; 800]
    requires { Ascends 3 sink section.now }
    ensures { NextMoves sink (records 3 section.now) result × Nexts sink result }
{
    let mut next = [0u8; 800];
    'moves: for i in 0..800 {
        let wanted = table_find::move_key(narrow(i / 32), narrow(i % 32));
        next[i] = target_of(section, 3, wanted, sink);
    }
    next
}

// Of the returns: by 25 times that plus the popped state.
pub fn next_returns(section: &[u8], sink: u8) -> [u8; 20000]
    requires { Ascends 4 sink section.now }
    ensures { NextReturns sink (records 4 section.now) result × Nexts sink result }
{
    let mut next = [0u8; 20000];
    'returns: for i in 0..20000 {
        let wanted = table_find::return_key(narrow(i / 800), narrow(i / 25 % 32), narrow(i % 25));
        next[i] = target_of(section, 4, wanted, sink);
    }
    next
}

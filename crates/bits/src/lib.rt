// 64-bit words as sets of states: one bit, and the states of a word one after the other.
#![tactic(auto)]

ghost use Rattle.std.specs.Prelude.{◌≡◌, ◌-◌, ◌^◌, ◌<◌};
ghost use Rattle.std.specs.Int.Count.{count_trailing_zeros};
ghost use Rattle.lists.specs.Bits.{has_bit};

// The word whose only bit is x.
pub fn bit(x: usize) -> u64
    requires { x < 64 }
    ensures { result ≡ 2 ^ x }
{
    1u64 << x
}

// Bit x of a word is 1.
pub fn has_bit(word: u64, x: usize) -> bool
    requires { x < 64 }
    ensures { result ≡ has_bit word x }
{
    (word >> x) % 2 == 1
}

// The lowest state of a word, 64 where it has none: its trailing zeros.
pub fn next_state(word: u64) -> u32
    ensures { result ≡ count_trailing_zeros 64 word }
{
    u64::trailing_zeros(word)
}

// The word without its lowest state.
pub fn later_states(word: u64) -> u64
    ensures { result ≡ word - 2 ^ count_trailing_zeros 64 word }
{
    if word == 0 {
        return 0;
    }
    word - (1u64 << u64::trailing_zeros(word))
}

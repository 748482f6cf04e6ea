// The words of tops at the start: an initial state has bottom.
ghost use Rattle.std.specs.Prelude.{◌≡◌, ◌-◌, ◌<◌, ◌≤◌, [], ◌++◌, length, replicate};
ghost use Rattle.limits.specs.Limits.{state_most};
ghost use Rattle.table_view.specs.Sections.{sectioned};
ghost use Rattle.tops_spec.specs.Tops.{start_words};
ghost use Rattle.tops.specs.First.{start_word};

// A state's first word, by its byte: an initial state has bottom, numbered 40.
fn start_word(byte: u8) -> u64
    ensures { result ≡ start_word byte }
{
    if byte % 2 == 1 {
        return bits::bit(40);
    }
    0
}

// The words of the states at the start, and zeros after them.
pub fn start_words(states: &[u8], words: &mut [u64])
    requires { (length states.now ≤ 40) × (length words.old ≡ 40) }
    ensures { words.new ≡ start_words state_most (sectioned 0 [] states.now [] [] []) ++ replicate (40 - length states.now) 0 }
{
    words.fill(0);
    'states: for (q, byte) in states.iter().enumerate() {
        words[q] = start_word(*byte);
    }
}

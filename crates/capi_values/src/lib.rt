// The values of an answer as C has them, stored where there is room for all of them.
#![tactic(auto)]

ghost use Rattle.std.specs.Prelude.{◌≡◌, [], ◌∷◌, ◌++◌, length};
ghost use Rattle.script_spec.specs.Script.{yes_value};
ghost use Rattle.capi_values.specs.Storing.{stored};

// Stores an answer's values where there is room for all of them.
pub fn store(answer: &[u64], values: &mut [u64])
    ensures { values.new ≡ stored answer.now values.old }
{
    if values.len() < answer.len() {
        return;
    }
    values[..answer.len()].copy_from_slice(answer);
}

// Stores words and one number after them, where there is room for all.
pub fn store_words(words: &[u64; 40], last: u64, values: &mut [u64])
    requires { length words.now ≡ 40 }
    ensures { values.new ≡ stored (words.now ++ (last ∷ [])) values.old }
{
    if values.len() < 41 {
        return;
    }
    store(words, values);
    values[40] = last;
}

// Yes or no as a value.
pub fn yes_value(yes: bool) -> u64
    ensures { result ≡ yes_value yes }
{
    u64::from(yes)
}

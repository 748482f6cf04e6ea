// The lengths of the tables of a season.
ghost use Rattle.std.specs.Prelude.{◌≡◌};
ghost use Rattle.season_spec.specs.Seasons.{lengths_fit};

// 34: one to 8 tables whose lengths add up to so many bytes, without wrapping.
pub fn lengths_fit(all: usize, lengths: &[u64]) -> bool
    ensures { result ≡ lengths_fit all lengths.now }
{
    if lengths.len() < 1 {
        return false;
    }
    if 8 < lengths.len() {
        return false;
    }
    let mut left = all as u64;
    'lengths: for length in lengths {
        if left < *length {
            return false;
        }
        left -= *length;
    }
    left == 0
}

// Units packed into words, and the hash of a list of units.
ghost use Rattle.std.specs.Prelude.{◌≡◌, ℕ, ◌*◌, ◌<◌, ◌≤◌, ◌^◌, false, length, slice_index};
ghost use Rattle.js_units.specs.Lanes.{IsWordOf, hash_from, is_wide, words_over};

use crate::words::{hash_step, lane_size, lanes};

/// Whether a unit is over 255, so that the units need two-byte lanes.
pub fn has_wide(units: &[u16]) -> bool
    ensures { result ≡ is_wide units.now }
{
    for unit in units {
        if *unit > 255 {
            return true;
        }
    }
    false
}

/// Word number `at` of the units, whose lanes past the last unit are 0.
pub fn pack(units: &[u16], wide: bool, at: u32) -> u64
    requires fits { wide ≡ false → (k : ℕ) → k < length units.now → slice_index units.now k < 256 }
    requires short { length units.now < 2 ^ 32 }
    requires within { at < words_over wide (length units.now) }
    ensures { IsWordOf wide units.now at result }
{
    let lanes = lanes(wide);
    let base = lane_size(wide);
    let from = (at * lanes) as usize;
    let to = units.len().min(from + lanes as usize);
    let mut word = 0;
    for i in (from..to).rev() {
        word = word * base + u64::from(unit_of(units, i));
    }
    word
}

/// The hash of units behind those whose hash is `h`; 0 is that of no unit.
pub fn hash_units(h: u32, units: &[u16]) -> u32
    ensures { result ≡ hash_from h units.now }
{
    let mut hash = h;
    for unit in units {
        hash = hash_step(hash, *unit);
    }
    hash
}

// The unit with this number.
fn unit_of(units: &[u16], i: usize) -> u16
    requires { i < length units.now }
    ensures fits { result < 65536 }
    ensures unit { result ≡ slice_index units.now i }
{
    units[i]
}

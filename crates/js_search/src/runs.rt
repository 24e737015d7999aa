// Units of two strings that are the same, by runs of units that are read into two buffers.
ghost use Rattle.std.specs.Prelude.{◌≡◌, ◌≢◌, ℕ, ◌+◌, ◌<◌, ◌≤◌, None, length, slice_index};
ghost use Rattle.js_store.specs.State.{IsKnown, IsSettled, text};
ghost use Rattle.js_store.specs.Faults.{Uses};

use js_store::Strings;

// Units of the first run, and of each behind it.
const FIRST: u32 = 32;

const SIZE: u32 = 256;

// How far the units of `needle` from number `from` on and below `size` occur in `hay` behind place
// `place`: the number of the first that differs, or `size`.
pub(crate) fn same_behind<S: Strings>(
    store: &mut S,
    hay: S::Ref,
    needle: S::Ref,
    place: u32,
    from: u32,
    size: u32,
) -> u32
    requires hay_known { IsKnown (S.state store.old) (S.number hay) }
    requires hay_settled { IsSettled (S.state store.old) (S.number hay) }
    requires needle_known { IsKnown (S.state store.old) (S.number needle) }
    requires needle_settled { IsSettled (S.state store.old) (S.number needle) }
    requires needle_room { size ≤ length (text (S.state store.old) (S.number needle)) }
    requires room { place + size ≤ length (text (S.state store.old) (S.number hay)) }
    requires short { place + size ≤ 536870888 }
    requires within { from ≤ size }
    ensures low { from ≤ result }
    ensures high { result ≤ size }
    ensures same { (k : ℕ) → from ≤ k → k < result
        → slice_index (text (S.state store.old) (S.number hay)) (place + k)
        ≡ slice_index (text (S.state store.old) (S.number needle)) k }
    ensures differs { result < size → slice_index (text (S.state store.old) (S.number hay)) (place + result)
        ≢ slice_index (text (S.state store.old) (S.number needle)) result }
    ensures uses { Uses (S.state store.old) (S.state store.new) None 0 0 }
{
    let (mut left, mut right) = ([0; 256], [0; 256]);
    let mut done = from;
    let mut most = FIRST;
    while done < size {
        let count = most.min(size - done);
        let same = same_run(
            store,
            hay,
            needle,
            place + done,
            done,
            &mut left[..count as usize],
            &mut right[..count as usize],
        );
        if same < count {
            return done + same;
        }
        done += count;
        most = SIZE;
    }
    size
}

// How many units are the same in `hay` from place `at` on and in `needle` from number `from` on,
// of as many as two buffers of the same length have room for.
fn same_run<S: Strings>(
    store: &mut S,
    hay: S::Ref,
    needle: S::Ref,
    at: u32,
    from: u32,
    left: &mut [u16],
    right: &mut [u16],
) -> u32
    requires hay_known { IsKnown (S.state store.old) (S.number hay) }
    requires hay_settled { IsSettled (S.state store.old) (S.number hay) }
    requires hay_long { at + length left.old ≤ length (text (S.state store.old) (S.number hay)) }
    requires needle_known { IsKnown (S.state store.old) (S.number needle) }
    requires needle_settled { IsSettled (S.state store.old) (S.number needle) }
    requires needle_long { from + length left.old ≤ length (text (S.state store.old) (S.number needle)) }
    requires alike { length right.old ≡ length left.old }
    requires short { length left.old ≤ 256 }
    ensures most { result ≤ length left.old }
    ensures same { (k : ℕ) → k < result → slice_index (text (S.state store.old) (S.number hay)) (at + k)
        ≡ slice_index (text (S.state store.old) (S.number needle)) (from + k) }
    ensures differs { result < length left.old
        → slice_index (text (S.state store.old) (S.number hay)) (at + result)
        ≢ slice_index (text (S.state store.old) (S.number needle)) (from + result) }
    ensures uses { Uses (S.state store.old) (S.state store.new) None 0 0 }
{
    store.read(hay, at, left);
    store.read(needle, from, right);
    same_front(left, right) as u32
}

// How many units in front are the same in two lists of the same length.
fn same_front(left: &[u16], right: &[u16]) -> usize
    requires { length right.now ≡ length left.now }
    ensures most { result ≤ length left.now }
    ensures same { (k : ℕ) → k < result → slice_index left.now k ≡ slice_index right.now k }
    ensures differs { result < length left.now → slice_index left.now result ≢ slice_index right.now result }
{
    if left == right {
        return left.len();
    }
    for k in 0..left.len() {
        if left[k] != right[k] {
            return k;
        }
    }
    left.len()
}

// Lanes that are cut out of a word, put above others and changed in width, by shifts.
ghost use Rattle.std.specs.Prelude.{◌≡◌, ◌↔◌, ℕ, ◌+◌, ◌-◌, ◌^◌, ◌<◌, ◌≤◌, IsTrue, true, false};
ghost use Rattle.js_units.specs.Lanes.{lane_base, lane_count, lane_of};
ghost use Rattle.heap_read.specs.Filling.{IsPlaced};
ghost use Rattle.heap_read.specs.Shifted.{HoldsLanes, lane_bits};
ghost use Rattle.heap_read.specs.Shifted as shifted;

use js_units::lanes;

// The bits of a lane.
fn lane_bits(wide: bool) -> u32
    ensures { result ≡ shifted.lane_bits wide }
{
    if wide { 16 } else { 8 }
}

// Lanes `low` up to `low + count` of a word, as the lowest ones.
pub(crate) fn lanes_at(word: u64, wide: bool, low: u32, count: u32) -> u64
    requires { low + count ≤ lane_count wide }
    ensures { HoldsLanes wide result count (λ k. lane_of wide word (low + k)) }
{
    if count == 0 {
        return 0;
    }
    let bits = lane_bits(wide);
    let rest = word >> (bits * low);
    if count == lanes(wide) {
        return rest;
    }
    rest % (1 << (bits * count))
}

// The `count` lowest lanes of a word, and above them those of another.
pub(crate) fn put_above(word: u64, upper: u64, wide: bool, count: u32) -> u64
    requires small { word < lane_base wide ^ count }
    requires room { (m : ℕ) × (count + m ≤ lane_count wide) × (upper < lane_base wide ^ m) }
    ensures small { (m : ℕ) → upper < lane_base wide ^ m → result < lane_base wide ^ (count + m) }
    ensures below { (q : ℕ) → q < count → lane_of wide result q ≡ lane_of wide word q }
    ensures above { (q : ℕ) → lane_of wide result (count + q) ≡ lane_of wide upper q }
{
    if upper == 0 {
        return word;
    }
    word + (upper << (lane_bits(wide) * count))
}

// Up to four one-byte lanes as two-byte ones.
pub(crate) fn widened(word: u64) -> u64
    requires { word < 2 ^ 32 }
    ensures { (count : ℕ) (unit : ℕ → ℕ) → count ≤ 4 → HoldsLanes false word count unit
        → HoldsLanes true result count unit }
{
    word % 256
        + word / 256 % 256 * 65536
        + word / 65536 % 256 * 4294967296
        + word / 16777216 * 281474976710656
}

// Four two-byte lanes as one-byte ones, which are enough for them.
pub(crate) fn narrowed(word: u64) -> u64
    ensures { (count : ℕ) (unit : ℕ → ℕ) → count ≤ 4 → ((k : ℕ) → k < count → unit k < 256)
        → HoldsLanes true word count unit → HoldsLanes false result count unit }
{
    word % 256
        + word / 65536 % 256 * 256
        + word / 4294967296 % 256 * 65536
        + word / 281474976710656 % 256 * 16777216
}

// The word with `count` lanes from `low` on changed to the lowest ones of another.
pub(crate) fn replaced(word: u64, lanes_of: u64, wide: bool, low: u32, count: u32) -> u64
    requires room { low + count ≤ lane_count wide }
    requires small { lanes_of < lane_base wide ^ count }
    ensures { IsPlaced wide word result low count (lane_of wide lanes_of) }
{
    let end = low + count;
    let before = lanes_at(word, wide, 0, low);
    let behind = lanes_at(word, wide, end, lanes(wide) - end);
    let upper = put_above(lanes_of, behind, wide, count);
    put_above(before, upper, wide, low)
}

// Whether one of four two-byte lanes is over 255, by their higher bytes.
pub(crate) fn has_wide_lane(word: u64) -> bool
    ensures some { IsTrue result → ((k : ℕ) → k < 4 → lane_of true word k < 256) → ⊥ }
    ensures none { (k : ℕ) → k < 4 → 256 ≤ lane_of true word k → IsTrue result }
{
    let higher = word / 256 % 256
        + word / 16777216 % 256
        + word / 1099511627776 % 256
        + word / 72057594037927936;
    higher > 0
}

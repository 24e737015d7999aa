// Hashes of strings by their slots. A string stays in its slot, so an agent that has noted what it hashes to
// knows from then on that it isn't one with another hash.
ghost use Rattle.std.specs.Prelude.{◌≡◌, ◌≢◌, ◌⊎◌, ℕ, ◌+◌, ◌%◌, ◌≤◌, ◌<◌, ◌^◌, IsTrue, length, slice_index};
ghost use Rattle.std.specs.Bool.{MatchBool};
ghost use Rattle.heap_intern.specs.Hashes.{IsNotedApart};

// Notes the hash of the string in a slot, where there is room for its number.
pub(crate) fn note_hash(hashes: &mut [u32], slot: u32, mark: u32)
    ensures room { length hashes.new ≡ length hashes.old }
    ensures only { (k : ℕ) → (slice_index hashes.new k ≡ slice_index hashes.old k)
        ⊎ ((k ≡ slot) × (slice_index hashes.new k ≡ mark)) }
    ensures there { slot < length hashes.old → slice_index hashes.new slot ≡ mark }
{
    let place = slot as usize;
    if place < hashes.len() {
        hashes[place] = mark;
    }
}

// How many hashes are compared at once.
const BLOCK: usize = 16;

// Whether each slot of a block is noted with another hash. It compares all of them, without a branch.
fn is_block_apart(hashes: &[u32], at: usize, mark: u32) -> bool
    requires { at + BLOCK ≤ length hashes.now }
    ensures { IsTrue result → (i : ℕ) → i < BLOCK → IsNotedApart hashes.now (at + i) mark }
{
    let block = &hashes[at..at + BLOCK];
    let mut apart = true;
    for i in 0..BLOCK {
        let hash = block[i];
        apart = apart & (hash != 0) & (hash != mark);
    }
    apart
}

// How many slots from one on, and before another, are noted with another hash, by whole blocks.
fn count_blocks(hashes: &[u32], from: usize, to: usize, mark: u32) -> usize
    requires range { from ≤ to }
    requires room { to ≤ length hashes.now }
    ensures within { from + result ≤ to }
    ensures apart { (i : ℕ) → i < result → IsNotedApart hashes.now (from + i) mark }
{
    let mut at = from;
    while to - at >= BLOCK && is_block_apart(hashes, at, mark) {
        at += BLOCK;
    }
    at - from
}

// How many slots from one on, and before another, are noted with another hash, up to the first that isn't.
fn count_singly(hashes: &[u32], from: usize, to: usize, mark: u32) -> usize
    requires range { from ≤ to }
    requires room { to ≤ length hashes.now }
    ensures within { from + result ≤ to }
    ensures apart { (i : ℕ) → i < result → IsNotedApart hashes.now (from + i) mark }
    ensures last { from + result < to → IsNotedApart hashes.now (from + result) mark → ⊥ }
{
    for slot in from..to {
        let hash = hashes[slot];
        if hash == 0 || hash == mark {
            return slot - from;
        }
    }
    to - from
}

// Whether something is noted, and it is another hash.
fn is_apart(hash: u32, mark: u32) -> bool
    ensures { MatchBool result ((0 < hash) × (hash ≢ mark)) ((hash ≡ 0) ⊎ (hash ≡ mark)) }
{
    hash != 0 && hash != mark
}

// How many slots from one on, and before another, are noted with another hash, up to the first that isn't. The
// first one is compared alone, since most paths end there.
fn count_apart(hashes: &[u32], from: u32, to: u32, mark: u32) -> u32
    requires { from ≤ to }
    ensures within { from + result ≤ to }
    ensures apart { (i : ℕ) → i < result → IsNotedApart hashes.now (from + i) mark }
    ensures last { from + result < to → IsNotedApart hashes.now (from + result) mark → ⊥ }
{
    let start = from as usize;
    let end = hashes.len().min(to as usize);
    if end <= start {
        return 0;
    }
    if !is_apart(hashes[start], mark) {
        return 0;
    }
    let blocks = count_blocks(hashes, start, end, mark);
    let singles = count_singly(hashes, start + blocks, end, mark);
    (blocks + singles) as u32
}

// The slot of a rank on the path that begins at a slot: behind the last slot comes slot 0.
pub(crate) fn slot_at(start: u32, rank: u32, slots: u32) -> u32
    requires start { start < slots }
    requires rank { rank < slots }
    ensures { result ≡ (start + rank) % slots }
{
    let before_end = slots - start;
    if rank < before_end {
        return start + rank;
    }
    rank - before_end
}

// The first rank from one on whose slot isn't noted with another hash; n where there is none.
pub(crate) fn next_rank(hashes: &[u32], start: u32, n: u32, mark: u32, r: u32) -> u32
    requires start { start < n }
    requires rank { r ≤ n }
    requires few { n < 2 ^ 29 }
    ensures from { r ≤ result }
    ensures most { result ≤ n }
    ensures apart { (j : ℕ) → r ≤ j → j < result → IsNotedApart hashes.now ((start + j) % n) mark }
    ensures last { result < n → IsNotedApart hashes.now ((start + result) % n) mark → ⊥ }
{
    let end = n - start;
    if r >= end {
        return r + count_apart(hashes, r - end, start, mark);
    }
    let run = count_apart(hashes, start + r, n, mark);
    if r + run < end {
        return r + run;
    }
    end + count_apart(hashes, 0, start, mark)
}

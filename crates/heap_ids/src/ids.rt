// A set of numbers below a bound that is given when it is made, a bit for each: what an agent of the heap
// keeps of the ids that it may use.
ghost use Rattle.std.specs.Prelude.{◌≡◌, ◌↔◌, ◌⊎◌, ℕ, ◌<◌, ◌^◌, IfOk, IsTrue};
ghost use Rattle.heap_ids.specs.Sets.{Covers, IsIn, set_size};

use std::alloc::{AllocError, Global};

/// A set of numbers, of which each is in [`Covers`].
#[derive(Drop)]
pub struct IdSet {
    words: Vec<u64>,
}

impl IdSet {
    /// The empty set, with room for the numbers below `bound`.
    pub fn new(alloc: Global, bound: u32) -> Result<IdSet, AllocError>
        ensures empty { IfOk result (λ set. (i : ℕ) → ¬ (IsIn set i)) }
        ensures room { IfOk result (λ set. Covers set bound) }
    {
        let words = Vec::from_elem(alloc, 0u64, bound as usize / 64 + 1)?;
        Ok(IdSet { words })
    }

    /// Whether a number is in the set.
    pub fn has(&self, id: u32) -> bool
        ensures { IsTrue result ↔ IsIn self.now id }
    {
        let place = id as usize / 64;
        place < self.words.len() && (self.words[place] >> (id % 64)) & 1 == 1
    }

    /// How many numbers are in the set, of which none is above `bound`, by one look at a word for 64.
    pub fn count(&self, bound: u32) -> u32
        requires { bound < 2 ^ 30 }
        ensures { result ≡ set_size self.now bound }
    {
        let words = self.words.as_slice();
        let most = (bound as usize / 64 + 1).min(words.len());
        let mut count = 0;
        for i in 0..most {
            count += words[i].count_ones();
        }
        count
    }

    /// Puts a number in.
    pub fn add(&mut self, id: u32)
        ensures room { (n : ℕ) → Covers self.old n → Covers self.new n }
        ensures kept { (i : ℕ) → IsIn self.old i → IsIn self.new i }
        ensures only { (i : ℕ) → IsIn self.new i → (i ≡ id) ⊎ IsIn self.old i }
        ensures there { (n : ℕ) → Covers self.old n → id < n → IsIn self.new id }
    {
        let place = id as usize / 64;
        if place < self.words.len() {
            self.words[place] |= 1 << (id % 64);
        }
    }

    /// Puts all numbers of another set in.
    pub fn add_all(&mut self, other: &IdSet)
        ensures room { (n : ℕ) → Covers self.old n → Covers self.new n }
        ensures kept { (i : ℕ) → IsIn self.old i → IsIn self.new i }
        ensures only { (i : ℕ) → IsIn self.new i → IsIn self.old i ⊎ IsIn other.now i }
        ensures there { (n i : ℕ) → Covers self.old n → i < n → IsIn other.now i → IsIn self.new i }
    {
        for i in 0..self.words.len().min(other.words.len()) {
            self.words[i] |= other.words[i];
        }
    }

    /// The same set once more.
    pub fn try_clone(&self) -> Result<IdSet, AllocError>
        ensures room { IfOk result (λ set. (n : ℕ) → Covers self.now n → Covers set n) }
        ensures same { IfOk result (λ set. (i : ℕ) → IsIn set i ↔ IsIn self.now i) }
    {
        let words = self.words.clone()?;
        Ok(IdSet { words })
    }
}

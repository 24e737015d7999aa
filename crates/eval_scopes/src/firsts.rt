// Where the bindings of a list begin that have one of 64 marks.
ghost use Rattle.std.specs.Prelude.{◌≡◌, ◌≤◌, ℕ, length, slice_index};
ghost use Rattle.eval_scopes.specs.Marks.{mark_number};

// The greatest place that is kept. Bindings behind it are sought from there on.
const LAST: usize = 255;

// For each of 64 marks, of which a key has one, a place before which no binding has it.
#[derive(Drop)]
pub(crate) struct Firsts {
    pub(crate) places: [u8; 64],
    ghost long: { length places ≡ 64 },
}

impl Firsts {
    // No binding.
    pub(crate) fn new() -> Firsts {
        Firsts { places: [255; 64] }
    }

    // A place before which no binding has the mark of a key.
    #[inline(always)]
    pub(crate) fn get(&self, key: u64) -> usize
        ensures { result ≡ mark_number self.now.places key }
    {
        usize::from(self.places[(key % 64) as usize])
    }

    // A binding of this key is at a place, behind all others.
    #[inline(always)]
    pub(crate) fn add(&mut self, key: u64, place: usize)
        ensures added { mark_number self.new.places key ≤ place }
        ensures kept { (k : ℕ) → mark_number self.new.places k ≤ mark_number self.old.places k }
    {
        let mark = (key % 64) as usize;
        let own = LAST.min(place) as u8;
        if own < self.places[mark] {
            self.places[mark] = own;
        }
    }
}

// The number of each name that was seen.
ghost use Rattle.std.specs.Prelude.{◌≡◌, List, ℕ, OnOk};
ghost use Rattle.std.specs.Ordering.{nat_cmp};
ghost use Rattle.std.specs.Cmp.Lexicographic.{slice_cmp};
ghost use Rattle.std.specs.FinMap as map;
ghost use Rattle.std.specs.Coded.{coded_ℕ, coded_list};
ghost use Rattle.parse_tokens.specs.Seen.{seen};

use js_units::NoMemory;
use std::alloc::Global;
use std::collections::BTreeMap;
use std::marker::Model;

#[derive(Drop)]
pub(crate) struct Numbers {
    entries: BTreeMap<Vec<u8>, u32>,
}

impl Model for Numbers {
    ghost Value = { map.FinMap (slice_cmp nat_cmp) ℕ };

    ghost coded = { map.code (coded_list coded_ℕ) coded_ℕ };

    ghost view = { λ a. seen (λ v. v.items) a.entries.entries };
}

impl Numbers {
    pub fn new(alloc: Global) -> Self
        ensures { result ≡ map.empty }
    {
        Self {
            entries: BTreeMap::new(alloc),
        }
    }

    pub fn get(&self, letters: &[u8]) -> Option<u32>
        ensures { result ≡ map.get self.now letters.now }
    {
        self.entries.get(letters).copied()
    }

    pub fn insert(&mut self, alloc: Global, letters: &[u8], number: u32) -> Result<(), NoMemory>
        ensures { OnOk result (self.new ≡ map.insert self.old letters.now number) }
    {
        let key = Vec::from_slice(alloc, letters)?;
        match self.entries.insert(key, number) {
            Ok(_) => Ok(()),
            Err(_) => Err(NoMemory),
        }
    }
}

// Sets of names, which refer to the names of a tree.
ghost use Rattle.std.specs.Prelude.{◌≡◌, true, false, IfOk, OnOk, not, if◌then◌else◌};
ghost use Rattle.js_parse.specs.NameFaults as reading;
ghost use Rattle.js_parse.specs.NameFaults.{nobody, marked, all_marked};
ghost use Rattle.js_parse.specs.NameWalk as walk;
ghost use Rattle.js_parse.specs.NameWalk.{letters_of};

use eval_tree::Name;
use js_units::NoMemory;
use std::alloc::Global;
use std::collections::BTreeSet;

#[derive(Drop)]
pub(crate) struct NameSet<'a> {
    names: BTreeSet<&'a [u8]>,
}

impl<'a> NameSet<'a> {
    pub fn new(alloc: Global) -> NameSet<'a>
        ensures { walk.has result ≡ nobody }
    {
        NameSet {
            names: BTreeSet::new(alloc),
        }
    }

    pub fn has(&self, letters: &[u8]) -> bool
        ensures { result ≡ walk.has self.now letters.now }
    {
        self.names.contains(letters)
    }

    /// Puts a name in, and says whether it was new.
    pub fn insert(&mut self, letters: &'a [u8]) -> Result<bool, NoMemory>
        ensures new { IfOk result (λ new. new ≡ not (walk.has self.old letters.now)) }
        ensures names { OnOk result (walk.has self.new ≡ marked true letters.now (walk.has self.old)) }
    {
        match self.names.insert(letters) {
            Ok(new) => Ok(new),
            Err(_) => Err(NoMemory),
        }
    }

    /// Removes a name, and says whether it was in.
    pub fn remove(&mut self, letters: &[u8]) -> bool
        ensures had { result ≡ walk.has self.old letters.now }
        ensures names { walk.has self.new ≡ marked false letters.now (walk.has self.old) }
    {
        self.names.remove(letters)
    }

    /// Removes a name where it was new.
    pub fn leave(&mut self, letters: &[u8], new: bool)
        ensures { walk.has self.new ≡ (if new then marked false letters.now (walk.has self.old)
            else walk.has self.old) }
    {
        if new {
            self.remove(letters);
        }
    }

    /// Puts names in.
    pub fn insert_all(&mut self, names: &'a [Name]) -> Result<(), NoMemory>
        ensures { OnOk result (walk.has self.new ≡ all_marked true names.now (walk.has self.old)) }
    {
        for name in names {
            self.insert(name.as_bytes())?;
        }
        Ok(())
    }

    /// Removes names, and gives those that were in.
    pub fn hide(&mut self, alloc: Global, names: &'a [Name]) -> Result<Vec<&'a [u8]>, NoMemory>
        ensures without { OnOk result (walk.has self.new ≡ all_marked false names.now (walk.has self.old)) }
        ensures again { IfOk result (λ hidden. all_marked true (letters_of hidden.items) (walk.has self.new)
            ≡ walk.has self.old) }
    {
        let mut hidden = Vec::new(alloc);
        for name in names {
            let letters = name.as_bytes();
            if self.remove(letters) {
                hidden.push(letters)?;
            }
        }
        Ok(hidden)
    }

    /// Puts names in that were hidden.
    pub fn show(&mut self, hidden: &[&'a [u8]]) -> Result<(), NoMemory>
        ensures { OnOk result (walk.has self.new
            ≡ all_marked true (letters_of hidden.now) (walk.has self.old)) }
    {
        for letters in hidden {
            self.insert(*letters)?;
        }
        Ok(())
    }
}

// Files in memory.
ghost use Rattle.std.specs.Prelude.{◌≡◌, ◌≤◌, ◌<◌, ◌++◌, ℕ, List, [], ◌∷◌, None, Some, length, IfOk, OnOk, OnErr, IsErrOf};
ghost use Rattle.std.specs.Option.{option_copied};
ghost use Rattle.std.specs.String.{string_bytes};
ghost use Rattle.js_io.specs.Counts.{next_count};
ghost use Rattle.js_io.specs.MemFiles.{newest_of, found_at, told_files, mem_files_state, held_in, faults_in, blamed_in, calls_in, failing_in, ReadFails};

use crate::{FILE_MAX, Files, ReadFault};
use js_units::NoMemory;
use std::alloc::{AllocError, Global};

#[derive(Debug, Drop)]
struct MemFile {
    name: String,
    bytes: Vec<u8>,
}

/// Files in memory, which report their bytes. To read a name that isn't there is a fault, and so is
/// a call of `read` that [`MemFiles::fail_at`] named.
#[derive(Debug, Drop)]
pub struct MemFiles {
    alloc: Global,
    files: Vec<MemFile>,
    faults: u64,
    blamed: String,
    calls: u64,
    failing: Vec<u64>,
}

impl MemFiles {
    /// No files. It allocates nothing.
    pub fn new(alloc: Global) -> Self
        ensures held { (name : List ℕ) → held_in result name ≡ None }
        ensures faults { faults_in result ≡ 0 }
        ensures blamed { blamed_in result ≡ [] }
        ensures calls { calls_in result ≡ 0 }
        ensures failing { failing_in result ≡ [] }
    {
        MemFiles {
            alloc,
            files: Vec::new(alloc),
            faults: 0,
            blamed: String::new(alloc),
            calls: 0,
            failing: Vec::new(alloc),
        }
    }

    /// Puts a file in place of the one of this name. A refusal changes nothing.
    pub fn put(&mut self, name: &str, bytes: &[u8]) -> Result<(), NoMemory>
        ensures put { OnOk result (held_in self.new name.now ≡ Some bytes.now) }
        ensures others { (other : List ℕ) → (other ≡ name.now → ⊥)
            → held_in self.new other ≡ held_in self.old other }
        ensures unchanged { OnErr result
            ((other : List ℕ) → held_in self.new other ≡ held_in self.old other) }
        ensures faults { faults_in self.new ≡ faults_in self.old }
        ensures blamed { blamed_in self.new ≡ blamed_in self.old }
        ensures calls { calls_in self.new ≡ calls_in self.old }
        ensures failing { failing_in self.new ≡ failing_in self.old }
    {
        match mem_file(self.alloc, name, bytes) {
            Ok(file) => match self.files.insert(0, file) {
                Ok(()) => Ok(()),
                Err(_) => Err(NoMemory),
            },
            Err(_) => Err(NoMemory),
        }
    }

    /// Makes one call of `read` fail, beside those that were named before. Calls are counted from
    /// 0, and each counts, whatever it answers. To name a call that was made already changes
    /// nothing of any answer. A refusal changes nothing.
    pub fn fail_at(&mut self, call: u32) -> Result<(), NoMemory>
        ensures failing { OnOk result (failing_in self.new ≡ failing_in self.old ++ call ∷ []) }
        ensures unchanged { OnErr result (failing_in self.new ≡ failing_in self.old) }
        ensures calls { calls_in self.new ≡ calls_in self.old }
        ensures files { mem_files_state self.new ≡ mem_files_state self.old }
    {
        match self.failing.push(u64::from(call)) {
            Ok(()) => Ok(()),
            Err(_) => Err(NoMemory),
        }
    }
}

fn mem_file(alloc: Global, name: &str, bytes: &[u8]) -> Result<MemFile, AllocError>
    ensures name { IfOk result (λ file. string_bytes file.name ≡ name.now) }
    ensures bytes { IfOk result (λ file. file.bytes.items ≡ bytes.now) }
{
    Ok(MemFile {
        name: String::from_str(alloc, name)?,
        bytes: bytes.to_vec(alloc)?,
    })
}

// The bytes of the first file of this name.
fn find<'a>(files: &'a [MemFile], name: &str) -> Option<&'a [u8]>
    ensures { option_copied result ≡ newest_of files.now name.now }
{
    for file in files {
        if file.name.as_str() == name {
            return Some(&file.bytes);
        }
    }
    None
}

// The bytes that this call of `read` finds.
fn find_at<'a>(files: &'a [MemFile], failing: &[u64], call: u64, name: &str) -> Option<&'a [u8]>
    ensures { option_copied result ≡ found_at files.now failing.now call name.now }
{
    if failing.contains(&call) {
        return None;
    }
    find(files, name)
}

impl Files for MemFiles {
    ghost state = { λ files. told_files files.files.items files.faults (string_bytes files.blamed) };

    fn read(&mut self, alloc: Global, name: &str) -> Result<Vec<u8>, ReadFault>
        ensures held { (other : List ℕ) → held_in self.new other ≡ held_in self.old other }

        ensures bytes { IfOk result (λ bytes. held_in self.old name.now ≡ Some bytes.items) }
        ensures small { IfOk result (λ bytes. length bytes.items ≤ FILE_MAX) }

        ensures fails { IsErrOf result ReadFault.Failed → ReadFails self.old name.now }
        ensures fails_not_ok { IfOk result (λ _. ReadFails self.old name.now → ⊥) }
        ensures fails_not_large { IsErrOf result ReadFault.TooLarge → ReadFails self.old name.now → ⊥ }
        ensures calls { calls_in self.new ≡ next_count (calls_in self.old) }
        ensures failing { failing_in self.new ≡ failing_in self.old }

        ensures failed { IsErrOf result ReadFault.Failed
            → faults_in self.new ≡ next_count (faults_in self.old) }
        ensures calm { (IsErrOf result ReadFault.Failed → ⊥) → faults_in self.new ≡ faults_in self.old }
        ensures counted { faults_in self.old ≤ faults_in self.new }

        ensures large { IsErrOf result ReadFault.TooLarge
            → (bytes : List ℕ) × (held_in self.old name.now ≡ Some bytes) × (FILE_MAX < length bytes) }

        ensures blamed_failed { IsErrOf result ReadFault.Failed → blamed_in self.new ≡ name.now }
        ensures blamed_large { IsErrOf result ReadFault.TooLarge → blamed_in self.new ≡ name.now }
        ensures blamed_memory { IsErrOf result ReadFault.Memory → blamed_in self.new ≡ blamed_in self.old }
        ensures blamed_ok { IfOk result (λ _. blamed_in self.new ≡ blamed_in self.old) }
    {
        let call = self.calls;
        self.calls = call.saturating_add(1);
        // the name is copied first, so that a fault is always reported with its name
        let Ok(blamed) = String::from_str(self.alloc, name) else {
            return Err(ReadFault::Memory);
        };
        match find_at(&self.files, &self.failing, call, name) {
            None => {
                self.faults = self.faults.saturating_add(1);
                self.blamed = blamed;
                Err(ReadFault::Failed)
            }
            Some(bytes) => {
                if bytes.len() > FILE_MAX as usize {
                    self.blamed = blamed;
                    return Err(ReadFault::TooLarge);
                }
                match bytes.to_vec(alloc) {
                    Ok(copy) => Ok(copy),
                    Err(_) => Err(ReadFault::Memory),
                }
            }
        }
    }
}

// The files and the streams of the process.
ghost use Rattle.std.specs.Prelude.{◌≡◌, ◌≤◌, ◌<◌, None, [], length, take, IfSome, IsSome, MatchOption};
ghost use Rattle.std.specs.Io.KnownBytes.{Appends, Keeps};
ghost use Rattle.js_io.specs.Content.{IsContent};
ghost use Rattle.js_io.specs.FilesState.{untold_files};
ghost use Rattle.js_io.specs.SinkState.{untold_sink};
ghost use Rattle.std.specs.String.{string_bytes};

use crate::{FILE_MAX, Failed, Files, ReadFault, Sink};
use std::alloc::Global;
use std::fs;
use std::io::{Read, Stderr, Stdout, Write};
use std::rt::Files as OpenFiles;

// How many bytes one read asks for.
const PIECE: usize = 4096;

/// The files of the process. They report no content, and count what fails.
#[derive(Drop)]
pub struct HostFiles<'a, R: OpenFiles> {
    rt: &'a R,
    faults: u64,
    oversize: u64,
    blamed: String,
}

// What came of the reading of an open file.
#[derive(Debug, Drop)]
enum Content {
    Whole(Vec<u8>),
    // the bytes that were read, which are too many already
    TooLarge(Vec<u8>),
    Failed,
    Memory,
}

impl<'a, R: OpenFiles> HostFiles<'a, R> {
    /// The files that this runtime opens. It allocates nothing.
    pub fn new(rt: &'a R, alloc: Global) -> Self
        ensures { ⟦<HostFiles<'a, R> as Files>⟧.state result ≡ untold_files 0 0 [] }
    {
        HostFiles {
            rt,
            faults: 0,
            oversize: 0,
            blamed: String::new(alloc),
        }
    }
}

// Reads to the end, but not on once there are too many bytes.
fn read_all<S: Read>(source: &mut S, alloc: Global) -> Content
    ensures { IsContent (S.remaining source.old) result }
{
    let mut bytes = Vec::new(alloc);
    let mut piece = [0; PIECE];
    for _turn in 0..FILE_MAX + 2 {
        match source.read(&mut piece) {
            Ok(0) => return Content::Whole(bytes),
            Ok(count) => {
                if bytes.extend_from_slice(&piece[..count]).is_err() {
                    return Content::Memory;
                }
                if bytes.len() > FILE_MAX as usize {
                    return Content::TooLarge(bytes);
                }
            }
            Err(_) => return Content::Failed,
        }
    }
    unreachable!()
}

fn read_file<R: OpenFiles>(rt: &R, alloc: Global, name: &str) -> Content
    ensures { IsContent None result }
{
    match fs::open(rt, name) {
        Ok(mut file) => read_all(&mut file, alloc),
        Err(_) => Content::Failed,
    }
}

impl<R: OpenFiles> Files for HostFiles<'_, R> {
    ghost state = { λ files. untold_files files.faults files.oversize (string_bytes files.blamed) };

    fn read(&mut self, alloc: Global, name: &str) -> Result<Vec<u8>, ReadFault> {
        let Ok(blamed) = String::from_str(alloc, name) else {
            return Err(ReadFault::Memory);
        };
        match read_file(self.rt, alloc, name) {
            Content::Whole(bytes) => Ok(bytes),
            Content::Memory => Err(ReadFault::Memory),
            Content::TooLarge(_) => {
                self.oversize = self.oversize.saturating_add(1);
                self.blamed = blamed;
                Err(ReadFault::TooLarge)
            }
            Content::Failed => {
                self.faults = self.faults.saturating_add(1);
                self.blamed = blamed;
                Err(ReadFault::Failed)
            }
        }
    }
}

/// The standard output of the process. It reports no content, and counts what fails.
#[derive(Drop)]
pub struct HostOut {
    stream: Stdout,
    faults: u64,
}

impl HostOut {
    pub fn new(rt: &HostRuntime) -> Self
        ensures { ⟦<HostOut as Sink>⟧.state result ≡ untold_sink 0 }
    {
        HostOut {
            stream: rt.stdout(),
            faults: 0,
        }
    }
}

/// The standard error of the process. It reports no content, and counts what fails.
#[derive(Drop)]
pub struct HostErr {
    stream: Stderr,
    faults: u64,
}

impl HostErr {
    pub fn new(rt: &HostRuntime) -> Self
        ensures { ⟦<HostErr as Sink>⟧.state result ≡ untold_sink 0 }
    {
        HostErr {
            stream: rt.stderr(),
            faults: 0,
        }
    }
}

// Writes once, and gives how many bytes were accepted. None is a fault, and so is a write of some
// bytes that accepts none.
fn write_some<W: Write>(stream: &mut W, piece: &[u8]) -> Option<usize>
    ensures bound { IfSome result (λ count. count ≤ length piece.now) }
    ensures some { IfSome result (λ count. 0 < length piece.now → 0 < count) }
    ensures bytes { MatchOption result (Keeps (W.contents stream.old) (W.contents stream.new))
        (λ count. Appends (W.contents stream.old) (W.contents stream.new) (take count piece.now)) }
    ensures empty { length piece.now ≡ 0 → IsSome result }
{
    if piece.is_empty() {
        return Some(0);
    }
    match stream.write(piece) {
        Ok(0) => None,
        Ok(count) => Some(count),
        Err(_) => None,
    }
}

impl Sink for HostOut {
    ghost state = { λ sink. untold_sink sink.faults };

    fn write(&mut self, piece: &[u8]) -> Result<usize, Failed> {
        match write_some(&mut self.stream, piece) {
            Some(count) => Ok(count),
            None => {
                self.faults = self.faults.saturating_add(1);
                Err(Failed)
            }
        }
    }
}

impl Sink for HostErr {
    ghost state = { λ sink. untold_sink sink.faults };

    fn write(&mut self, piece: &[u8]) -> Result<usize, Failed> {
        match write_some(&mut self.stream, piece) {
            Some(count) => Ok(count),
            None => {
                self.faults = self.faults.saturating_add(1);
                Err(Failed)
            }
        }
    }
}

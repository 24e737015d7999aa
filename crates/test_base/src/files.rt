// Files and sinks, in memory and of the process.
use crate::rows::{Table, check, parted};
use js_io::{
    FILE_MAX, Files, HostErr, HostFiles, HostOut, MemFiles, MemSink, NullSink, Sink, write_all,
};
use std::alloc::{AllocError, Global};
use std::fs;
use std::process::Abort;
use std::test::Fail;

// A file of so many bytes.
fn text(alloc: Global, len: u32) -> Result<Vec<u8>, AllocError> {
    let mut bytes = Vec::new(alloc);
    for _byte in 0..len {
        bytes.push(b' ')?;
    }
    Ok(bytes)
}

// The length of the file, or why it isn't read.
fn length<F: Files>(files: &mut F, alloc: Global, name: &str) -> Result<String, AllocError> {
    match files.read(alloc, name) {
        Ok(bytes) => format!(in alloc; "{}", bytes.len()),
        Err(fault) => format!(in alloc; "{fault:?}"),
    }
}

// Whether each name of the rows is read in this order as its row expects.
fn check_reads<F: Files>(
    rt: &impl Abort,
    alloc: Global,
    files: &mut F,
    rows: &str,
) -> Result<(), Fail> {
    for row in rows.lines() {
        let (name, want) = parted(row, " -> ")?;
        let found = length(files, alloc, name)?;
        assert_eq!(rt; found.as_str(), want, "{row}");
    }
    Ok(())
}

// The files that are read in this order, of whose reads the second and the fifth are to fail, and what
// comes of each. Calls are counted from 0, whatever they answer.
const READS: &str = "full -> 1048576
full -> Failed
none -> Failed
over -> TooLarge
twice -> Failed
twice -> 4
none -> Failed";

#[test]
fn files_in_memory(rt: HostRuntime) -> Result<(), Fail> {
    let alloc = rt.alloc();
    let mut files = MemFiles::new(alloc);
    files.put("full", text(alloc, FILE_MAX)?.as_slice())?;
    files.put("over", text(alloc, FILE_MAX + 1)?.as_slice())?;
    files.put("twice", b"first")?;
    files.put("twice", b"then")?;
    files.fail_at(4)?;
    files.fail_at(1)?;
    check_reads(&rt, alloc, &mut files, READS)
}

const HOST_READS: &str = "full -> 1048576
over -> TooLarge
empty -> 0
folder -> Failed
none -> Failed";

#[test]
fn files_of_the_process(rt: HostRuntime) -> Result<(), Fail> {
    let alloc = rt.alloc();
    fs::write(&rt, "full", text(alloc, FILE_MAX)?.as_slice())?;
    fs::write(&rt, "over", text(alloc, FILE_MAX + 1)?.as_slice())?;
    fs::write(&rt, "empty", "")?;
    fs::create_dir(&rt, "folder")?;
    check_reads(&rt, alloc, &mut HostFiles::new(&rt, alloc), HOST_READS)
}

#[test]
fn streams_of_the_process(rt: HostRuntime) {
    let mut out = HostOut::new(&rt);
    let written = (write_all(&mut out, b"out\n"), out.write(b""));
    assert_eq!(rt; written, (Ok(()), Ok(0)));
    let mut err = HostErr::new(&rt);
    assert_eq!(rt; write_all(&mut err, b"err\n"), Ok(()));
}

#[test]
fn a_sink_that_keeps_nothing(rt: HostRuntime) -> Result<(), Fail> {
    let mut sink = NullSink::new();
    assert_eq!(rt; sink.write(b"hello"), Ok(5));
    assert_eq!(rt; sink.write(b""), Ok(0));
    assert_eq!(rt; write_all(&mut sink, b"hello"), Ok(()));
    Ok(())
}

// So many bytes a write and in all, what comes of writing `hello`, and what is received.
const WRITES: &str = "1 5 -> Ok(()) hello
7 5 -> Ok(()) hello
2 4 -> Err(Failed) hell
3 0 -> Err(Failed) ";

struct Writes;

impl Table for Writes {
    fn told(alloc: Global, given: &str) -> Result<String, Fail> {
        let (most, room) = parted(given, " ")?;
        let most = most.parse::<u32>()?.max(1);
        let mut sink = MemSink::new(alloc, most, room.parse::<u32>()?)?;
        let written = write_all(&mut sink, b"hello");
        Ok(format!(in alloc; "{written:?} {}", sink.taken().escape_ascii())?)
    }
}

#[test]
fn a_sink_in_memory(rt: HostRuntime) -> Result<(), Fail> {
    check::<Writes>(&rt, rt.alloc(), WRITES)
}

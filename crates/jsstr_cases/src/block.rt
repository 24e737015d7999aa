// A case that is a block of lines.

use crate::case::{CALLS, Case, Ending, FILE, Fault, PLAYER, RUNNER, SCHEDULE, Way};
use crate::line::words;
use crate::spelling::bytes_of;
use js_io::MemFiles;
use std::alloc::Global;

// The parts of a block, in the order in which they come.
#[derive(Clone, Copy)]
enum Part {
    Head,
    File,
    Fail,
    Words,
    NoWords,
    Way(Way),
    Out,
    Err,
}

impl Part {
    fn place(self) -> u8 {
        match self {
            Part::Head => 0,
            Part::File => 1,
            Part::Fail => 2,
            Part::Words | Part::NoWords => 3,
            Part::Way(_) => 4,
            Part::Out => 5,
            Part::Err => 6,
        }
    }

    // Whether this section may follow that one: files alone may be several.
    fn may_follow(self, last: Part) -> bool {
        match self {
            Part::File => last.place() <= 1,
            _ => last.place() < self.place(),
        }
    }
}

// The part that a section's head begins, and what follows one blank.
fn part_of(head: &str) -> Result<(Part, Option<&str>), Fault> {
    match head.split_once(' ') {
        Some(("file", name)) => Ok((Part::File, Some(name))),
        Some(("fail", call)) => Ok((Part::Fail, Some(call))),
        Some(("words", words)) => Ok((Part::Words, Some(words))),
        Some(("no", "words")) => Ok((Part::NoWords, None)),
        Some(_) => Err(Fault::Form("no such section")),
        None => Ok((alone(head)?, None)),
    }
}

fn alone(head: &str) -> Result<Part, Fault> {
    match head {
        "words" => Ok(Part::Words),
        "cut" => Ok(Part::Way(Way::Cut)),
        "ends" => Ok(Part::Way(Way::Ends)),
        "held" => Ok(Part::Way(Way::Held)),
        "out" => Ok(Part::Out),
        "err" => Ok(Part::Err),
        _ => Err(Fault::Form("no such section")),
    }
}

/// A block that was begun, and the section that is open in it.
#[derive(Drop)]
pub(crate) struct Block {
    case: Case,
    part: Part,
    /// `%XX` is a byte there.
    spelled: bool,
    /// The name of the file.
    name: String,
    bytes: Vec<u8>,
    out: Vec<u8>,
    err: Vec<u8>,
}

impl Block {
    /// The block that begins on this line with this head: a schedule, a call or scripts.
    pub(crate) fn new(alloc: Global, line: usize, head: &str) -> Result<Self, Fault> {
        let (program, file) = if head.starts_with("== play: ") {
            (PLAYER, SCHEDULE)
        } else if head.starts_with("== call: ") {
            (CALLS, FILE)
        } else {
            (RUNNER, FILE)
        };
        Ok(Block {
            case: Case {
                line,
                files: MemFiles::new(alloc),
                words: words(alloc, program, file)?,
                way: Way::Once,
                wanted: Vec::new(alloc),
            },
            part: Part::Head,
            spelled: false,
            name: String::new(alloc),
            bytes: Vec::new(alloc),
            out: Vec::new(alloc),
            err: Vec::new(alloc),
        })
    }

    /// The case of a whole block.
    pub(crate) fn into_case(self) -> Case {
        self.case
    }

    /// Reads one more line, and says whether the block is whole with it.
    pub(crate) fn take(&mut self, alloc: Global, line: &str) -> Result<bool, Fault> {
        let Some(section) = line.strip_prefix("-- ") else {
            self.add(alloc, line)?;
            return Ok(false);
        };
        if let Some(size) = section.strip_prefix("fill ") {
            self.fill(size)?;
            return Ok(false);
        }
        self.close(alloc)?;
        if let Some(status) = section.strip_prefix("status ") {
            return self.end(alloc, status);
        }
        match section.strip_prefix('@') {
            Some(head) => self.open(alloc, head, true)?,
            None => self.open(alloc, section, false)?,
        }
        Ok(false)
    }

    // Adds a line to the section.
    fn add(&mut self, alloc: Global, line: &str) -> Result<(), Fault> {
        if line.starts_with("== ") || !matches!(self.part, Part::File | Part::Out | Part::Err) {
            return Err(Fault::Form("a line of no section"));
        }
        if !self.spelled {
            self.bytes.extend_from_slice(line.as_bytes())?;
            self.bytes.push(b'\n')?;
            return Ok(());
        }
        let joined = line.strip_suffix('%');
        self.bytes
            .extend_from_slice(&bytes_of(alloc, joined.unwrap_or(line))?)?;
        if joined.is_none() {
            self.bytes.push(b'\n')?;
        }
        Ok(())
    }

    // Adds line feeds to the file that is open, until it has so many bytes.
    fn fill(&mut self, size: &str) -> Result<(), Fault> {
        let Ok(size) = size.parse::<u32>() else {
            return Err(Fault::Form("a size that is no number"));
        };
        for _ in self.bytes.len()..size as usize {
            self.bytes.push(b'\n')?;
        }
        Ok(())
    }

    // Puts what the section has where it belongs.
    fn close(&mut self, alloc: Global) -> Result<(), Fault> {
        let bytes = std::mem::replace(&mut self.bytes, Vec::new(alloc));
        match self.part {
            Part::Head | Part::Fail | Part::Words | Part::NoWords | Part::Way(_) => {}
            Part::File => self.case.files.put(self.name.as_str(), &bytes)?,
            Part::Out => self.out = bytes,
            Part::Err => self.err = bytes,
        }
        Ok(())
    }

    fn open(&mut self, alloc: Global, head: &str, spelled: bool) -> Result<(), Fault> {
        let (part, rest) = part_of(head)?;
        if !part.may_follow(self.part) {
            return Err(Fault::Form("a section out of order"));
        }
        self.part = part;
        self.spelled = spelled;
        match (part, rest) {
            (Part::File, Some(name)) => self.name = String::from_str(alloc, name)?,
            (Part::Words, Some(words)) => self.set_words(alloc, words)?,
            (Part::Words, None) => self.case.words.truncate(1),
            (Part::NoWords, _) => self.case.words.truncate(0),
            (Part::Fail, Some(call)) => self.fail(call)?,
            (Part::Way(way), _) => self.case.way = way,
            _ => {}
        }
        Ok(())
    }

    // The read of this number fails, counted from 0.
    fn fail(&mut self, call: &str) -> Result<(), Fault> {
        match call.parse::<u32>() {
            Ok(call) => Ok(self.case.files.fail_at(call)?),
            Err(_) => Err(Fault::Form("a read that is no number")),
        }
    }

    // Puts the arguments behind the program's name.
    fn set_words(&mut self, alloc: Global, words: &str) -> Result<(), Fault> {
        self.case.words.truncate(1);
        for word in words.split(' ') {
            let word = self.word_of(alloc, word)?;
            if let Some((first, last)) = range_of(word.as_str()) {
                let place = self.case.words.len();
                self.case.way = Way::Each { place, first, last };
            }
            self.case.words.push(word)?;
        }
        Ok(())
    }

    // The argument that this one spells.
    fn word_of(&self, alloc: Global, word: &str) -> Result<String, Fault> {
        if !self.spelled {
            return Ok(String::from_str(alloc, word)?);
        }
        let bytes = bytes_of(alloc, word.strip_suffix('%').unwrap_or(word))?;
        match String::from_utf8(bytes) {
            Ok(word) => Ok(word),
            Err(_) => Err(Fault::Form("a word that isn't UTF-8")),
        }
    }

    // An ending that is expected has this status. Says whether the block is whole: else another ending may come.
    fn end(&mut self, alloc: Global, status: &str) -> Result<bool, Fault> {
        let more = status.strip_suffix(" or");
        let Ok(status) = more.unwrap_or(status).parse::<u8>() else {
            return Err(Fault::Form("a status that is no number"));
        };
        let out = std::mem::replace(&mut self.out, Vec::new(alloc));
        let err = std::mem::replace(&mut self.err, Vec::new(alloc));
        self.case.wanted.push(Ending { status, out, err })?;
        self.part = Part::Words;
        Ok(more.is_none())
    }
}

// The range that an argument `FIRST..LAST` spells.
fn range_of(word: &str) -> Option<(u32, u32)> {
    let (first, last) = word.split_once("..")?;
    match (first.parse::<u32>(), last.parse::<u32>()) {
        (Ok(first), Ok(last)) => Some((first, last)),
        _ => None,
    }
}

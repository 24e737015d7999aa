// A case, and why a text is none.
ghost use Rattle.std.specs.Prelude.{◌↔◌, IsTrue};
ghost use Rattle.jsstr_cases.specs.Ending.{IsSame};

use js_io::MemFiles;
use js_units::NoMemory;
use std::alloc::{AllocError, AllocFailed};
use std::error::Error;
use std::fmt;

/// The file that a case runs where it names no other, and the schedule that it plays.
pub(crate) const FILE: &str = "a.js";

pub(crate) const SCHEDULE: &str = "a.sched";

/// The programs that get the arguments, and what gets them in a case of a call.
pub(crate) const RUNNER: &str = "jsstr";

pub(crate) const PLAYER: &str = "jssched";

pub(crate) const CALLS: &str = "calls";

/// The status, and what both sinks received.
#[derive(Drop)]
pub(crate) struct Ending {
    pub status: u8,
    pub out: Vec<u8>,
    pub err: Vec<u8>,
}

impl Ending {
    /// Whether both are the same.
    pub(crate) fn is(&self, other: &Ending) -> bool
        ensures { IsTrue result ↔ IsSame self.now other.now }
    {
        self.status == other.status
            && self.out.as_slice() == other.out.as_slice()
            && self.err.as_slice() == other.err.as_slice()
    }
}

impl fmt::Display for Ending {
    fn fmt<W: fmt::Write>(&self, f: &mut fmt::Formatter<W>) -> fmt::Result {
        let out = self.out.escape_ascii();
        let err = self.err.escape_ascii();
        write!(f, "status {}, out \"{out}\", err \"{err}\"", self.status)
    }
}

/// How a case is run.
#[derive(Clone, Copy)]
pub(crate) enum Way {
    Once,
    /// With each number of this range as the argument at a place.
    Each { place: usize, first: u32, last: u32 },
    /// And then with each sink cut before each byte, and behind the last one, by each number of bytes a write.
    Cut,
    /// The same, where a write accepts all that there is room for.
    Ends,
    /// With a gate that holds the first script until the second one has entered.
    Held,
}

impl Way {
    /// The way of a case that is run so often.
    pub(crate) fn with(self, repeats: Repeats) -> Way {
        match (repeats, self) {
            (Repeats::None, Way::Cut | Way::Ends) => Way::Once,
            (Repeats::None, Way::Each { place, last, .. }) => Way::Each {
                place,
                first: last,
                last,
            },
            (_, way) => way,
        }
    }
}

/// Which runs behind its first one a case has.
#[derive(Clone, Copy)]
pub(crate) enum Repeats {
    All,
    None,
}

/// Files, the arguments of the command line with the program's name first, and what is requested.
#[derive(Drop)]
pub(crate) struct Case {
    /// The number of the line that it begins on.
    pub line: usize,
    pub files: MemFiles,
    pub words: Vec<String>,
    pub way: Way,
    /// One of these.
    pub wanted: Vec<Ending>,
}

/// Why a text isn't a case, or no case file.
#[derive(Clone, Copy, Debug)]
pub(crate) enum Fault {
    Form(&'static str),
    Memory,
}

impl fmt::Display for Fault {
    fn fmt<W: fmt::Write>(&self, f: &mut fmt::Formatter<W>) -> fmt::Result {
        match self {
            Fault::Form(why) => write!(f, "{why}"),
            Fault::Memory => write!(f, "out of memory"),
        }
    }
}

impl Error for Fault {}

impl From<AllocError> for Fault {
    fn from(_error: AllocError) -> Fault {
        Fault::Memory
    }
}

impl<T: Drop> From<AllocFailed<T>> for Fault {
    fn from(_error: AllocFailed<T>) -> Fault {
        Fault::Memory
    }
}

impl From<NoMemory> for Fault {
    fn from(_error: NoMemory) -> Fault {
        Fault::Memory
    }
}

// Faults of names, by their place.
ghost use Rattle.std.specs.Prelude.{◌≡◌};
ghost use Rattle.js_parse.specs.FirstFault as definition;
ghost use Rattle.js_parse.specs.FirstFault.{fault_of};
ghost use Rattle.js_parse.specs.NameFaults as reading;
ghost use Rattle.js_parse.specs.NameWalk.{found_of};

/// A fault of a script's names or keys, with the byte offset of the name or key.
#[derive(Clone, Copy, Debug, PartialEq, Eq)]
pub enum NameFault {
    /// A name that is declared a second time in its block, or at the top where the prelude declares it.
    Duplicate { at: u32 },
    /// The name of a `for` that is assigned in its body.
    LoopName { at: u32 },
    /// A key of an object literal that is `__proto__`.
    ProtoKey { at: u32 },
}

fn rank(fault: NameFault) -> u64
    ensures { result ≡ definition.fault_rank (fault_of fault) }
{
    match fault {
        NameFault::Duplicate { at } => 3 * at as u64,
        NameFault::LoopName { at } => 3 * at as u64 + 1,
        NameFault::ProtoKey { at } => 3 * at as u64 + 2,
    }
}

// The one that comes before the other.
fn earlier(first: NameFault, fault: NameFault) -> NameFault
    ensures { fault_of result ≡ reading.earlier (fault_of first) (fault_of fault) }
{
    if rank(fault) < rank(first) {
        fault
    } else {
        first
    }
}

/// The first of what was found and one more.
pub(crate) fn offer(first: Option<NameFault>, fault: NameFault) -> Option<NameFault>
    ensures { found_of result ≡ reading.offer (found_of first) (fault_of fault) }
{
    match first {
        None => Some(fault),
        Some(first) => Some(earlier(first, fault)),
    }
}

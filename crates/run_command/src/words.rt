// The arguments of the command line, read.
ghost use Rattle.std.specs.Prelude.{◌≡◌, Some, map, IfOk, IfErr};
ghost use Rattle.std.specs.String.{string_bytes};
ghost use Rattle.clap.specs.Words.{kind_of};
ghost use Rattle.run_command.specs.Words.{IsRequestInRange, IsRefusal, request_for, request_of};

use crate::command::matches_for;
use crate::options::plan_in;
use crate::plan::{Plan, WordsFault};
use clap::Error;
use clap::error::ErrorKind;
use std::alloc::Global;

// Why the command gives no matches.
fn refusal(error: &Error) -> WordsFault
    ensures memory { kind_of error.now ≡ ErrorKind.OutOfMemory → result ≡ WordsFault.Memory }
    ensures words { (kind_of error.now ≡ ErrorKind.OutOfMemory → ⊥) → result ≡ WordsFault.Refused }
{
    if error.kind() == ErrorKind::OutOfMemory {
        return WordsFault::Memory;
    }
    WordsFault::Refused
}

/// What the arguments of the command line ask for, of which the first is the program's name.
///
/// A request for help is refused, as is an option that is given twice.
pub fn read_words<'a>(alloc: Global, words: &'a [String]) -> Result<Plan<'a>, WordsFault>
    ensures planned { IfOk result
        (λ plan. request_of (map string_bytes words.entry.now) ≡ Some (request_for plan)) }
    ensures refused { IfErr result (IsRefusal (request_of (map string_bytes words.entry.now))) }
    ensures ranges { IfOk result (λ plan. IsRequestInRange (request_for plan)) }
{
    let matches = match matches_for(alloc, words) {
        Ok(matches) => matches,
        Err(error) => return Err(refusal(&error)),
    };
    plan_in(alloc, &matches)
}

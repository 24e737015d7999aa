// From bytes to a script whose names are right.
ghost use Rattle.std.specs.Prelude.{◌≡◌, ◌≤◌, ◌⊎◌, length, IfOk, IfErr, MatchResult};
ghost use Rattle.eval_tree.specs.Tree.{Tree, tree_of};
ghost use Rattle.js_parse.specs.FirstFault.{fault_of};
ghost use Rattle.js_parse.specs.Spells.{Spells, Refused, misnamed};
ghost use Rattle.js_parse.specs.declared.fault.ParseFault.TheVariants.{Memory};
ghost use Rattle.js_parse.specs.Told.{IsTold};

use crate::fault::{ParseFault, Role};
use crate::grammar::grammatical;
use crate::name_fault::NameFault;
use crate::name_walk::first_fault;
use eval_tree::{Names, Script};
use std::alloc::Global;

fn name_fault(fault: NameFault) -> ParseFault
    ensures { result ≡ misnamed (fault_of fault) }
{
    match fault {
        NameFault::Duplicate { at } => ParseFault::Duplicate { at },
        NameFault::LoopName { at } => ParseFault::LoopName { at },
        NameFault::ProtoKey { at } => ParseFault::NotInProfile { at },
    }
}

// What `parse` answers, against the relations alone.
fn read(alloc: Global, bytes: &[u8], role: Role, outer: &Names) -> Result<Script, ParseFault>
    requires { length bytes.now ≤ 1_048_576 }
    ensures spells { IfOk result (λ script. Spells role outer.now bytes.now (tree_of script)) }
    ensures refused { IfErr result (IsTold role outer.now bytes.now) }
{
    let (script, found) = grammatical(alloc, bytes, role)?;
    match first_fault(alloc, outer, &script, found)? {
        None => Ok(script),
        Some(fault) => Err(name_fault(fault)),
    }
}

/// The script that the bytes spell, in a role and after a prelude that declares the `outer` names.
///
/// Of several faults the first lexical one is reported; where there is none, the one grammatical fault; where
/// there is none of these, the fault of names and keys with the least offset. A lexical fault is never out of memory.
pub fn parse(alloc: Global, bytes: &[u8], role: Role, outer: &Names) -> Result<Script, ParseFault>
    requires short { length bytes.now ≤ 1_048_576 }
    ensures spells { IfOk result (λ script. Spells role outer.now bytes.now (tree_of script)) }
    ensures found { (tree : Tree) → Spells role outer.now bytes.now tree
        → MatchResult result (λ script. tree_of script ≡ tree) (λ fault. fault ≡ Memory) }
    ensures refused { IfErr result (λ fault. (fault ≡ Memory) ⊎ Refused role outer.now bytes.now fault) }
{
    read(alloc, bytes, role, outer)
}

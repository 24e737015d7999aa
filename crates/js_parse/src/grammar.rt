// From bytes to a tree, whose names aren't looked at.
ghost use Rattle.std.specs.Prelude.{◌≡◌, ◌≤◌, length, map, IfOk, IfErr};
ghost use Rattle.eval_tree.specs.Tree.{tree_of, stmt_tree};
ghost use Rattle.parse_syntax.specs.Grammar.{own_names};
ghost use Rattle.js_parse.specs.Spells as definition;
ghost use Rattle.js_parse.specs.NameWalk.{found_of};
ghost use Rattle.js_parse.specs.Told as told;
ghost use Rattle.js_parse.specs.Told.{IsRefusal, ParsesWith};

use crate::fault::{ParseFault, Role};
use crate::misplaced::grammar_fault;
use crate::name_fault::NameFault;
use crate::proto_key::first_proto_key;
use eval_tree::{Script, Stmt};
use js_lex::LexFault;
use js_units::{NoMemory, Units};
use parse_statements::{declared, statements};
use parse_syntax::Tables;
use parse_tokens::{ScriptTokens, tokens};
use std::alloc::Global;

fn prints(role: Role) -> bool
    ensures { result ≡ definition.prints role }
{
    match role {
        Role::Prelude => false,
        Role::Main => true,
    }
}

fn lex_fault(fault: LexFault) -> ParseFault
    ensures { result ≡ told.lex_fault fault }
{
    match fault {
        LexFault::Memory => ParseFault::Memory,
        fault => ParseFault::Lex(fault),
    }
}

fn script(alloc: Global, literals: Vec<Units>, body: Vec<Stmt>) -> Result<Script, NoMemory>
    ensures literals { IfOk result (λ script. script.literals.items ≡ literals.items) }
    ensures body { IfOk result (λ script. script.body.items ≡ body.items) }
    ensures top { IfOk result (λ script. script.top ≡ own_names (map stmt_tree body.items)) }
{
    let top = declared(alloc, &body)?;
    Ok(Script {
        literals,
        body,
        top,
    })
}

/// The tree that the bytes parse to, with the first key that is `__proto__`; or why they parse to none. Its names
/// may be wrong.
pub(crate) fn grammatical(
    alloc: Global,
    bytes: &[u8],
    role: Role,
) -> Result<(Script, Option<NameFault>), ParseFault>
    requires short { length bytes.now ≤ 1_048_576 }
    ensures parses { IfOk result (λ found. ParsesWith role bytes.now (tree_of found.0) (found_of found.1)) }
    ensures refused { IfErr result (IsRefusal role bytes.now) }
{
    let source = match tokens(alloc, bytes) {
        Ok(source) => source,
        Err(fault) => return Err(lex_fault(fault)),
    };
    let ScriptTokens {
        tokens,
        literals,
        names,
        keys,
    } = source;
    let tables = Tables { names, keys };
    let body = match statements(alloc, &tables, &tokens, prints(role)) {
        Ok(body) => body,
        Err(fault) => return Err(grammar_fault(fault, &tokens, bytes.len() as u32)),
    };
    let found = first_proto_key(&tables, &tokens);
    let script = script(alloc, literals, body)?;
    Ok((script, found))
}

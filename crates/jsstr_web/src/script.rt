// The first statements of a script.
ghost use Rattle.std.specs.Prelude.{◌≡◌};
ghost use Rattle.eval_tree.specs.Tree.{tree_of};
ghost use Rattle.jsstr_web.specs.Statements.{count_of, shortened};

use eval_tree::Script;

/// The script without what is behind its first statements.
pub(crate) fn first_statements(script: Script, most: u32) -> Script
    ensures { tree_of result ≡ shortened most (tree_of script) }
{
    let Script {
        literals,
        mut body,
        top,
    } = script;
    body.truncate(most as usize);
    Script {
        literals,
        body,
        top,
    }
}

/// How many statements there are at the top.
#[tactic(auto, using(crate::proofs::First::count_body))]
pub(crate) fn statement_count(script: &Script) -> u64
    ensures { result ≡ count_of (tree_of script.now) }
{
    let body = script.body.as_slice();
    body.len() as u64
}

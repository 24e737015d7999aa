// Sources and scripts.
use eval_tree::Script;

/// A source: the argument that names it, and its bytes.
#[derive(Debug, Drop)]
pub struct SourceText<'a> {
    pub name: &'a str,
    pub bytes: Vec<u8>,
}

/// The sources of a run: a prelude or none, and scripts.
#[derive(Debug, Drop)]
pub struct Sources<'a> {
    pub prelude: Option<SourceText<'a>>,
    pub scripts: Vec<SourceText<'a>>,
}

/// The scripts that the sources spell.
#[derive(Drop)]
pub struct Scripts {
    pub prelude: Option<Script>,
    pub scripts: Vec<Script>,
}
